//! Tests of the pad's calls, on both scales, with sheets and values worked out by hand.
//!
//! On the ruled scale with division 10 the code c is c/10. On the sliding scale 1 is the code 4,096, 2 is 8,192, 3 is 10,240, 4 is 12,288, 5 is 13,312 and 10 is 17,408, and the codes from -8,192 to 8,192 count 4096ths; from 8,192 to 12,288 they go on by 2048ths.
#![tactic(auto)]

#[cfg(test)]
mod tests {
    use fault::*;
    use number::Fraction;
    use pad::*;
    use range::*;
    use scale::*;
    use sheet::*;
    use std::process::Abort;
    use std::test::Fail;

    const LOW: i64 = -21474836471;

    const HIGH: i64 = 21474836471;

    const SLIDING_LOW: i64 = -81920;

    const SLIDING_HIGH: i64 = 81920;

    const LINE: u8 = 0x01;

    const CONSTANT: u8 = 0x02;

    const KEEP: u8 = 0x03;

    const PLUS: u8 = 0x04;

    const TIMES: u8 = 0x06;

    const PARTED: u8 = 0x08;

    const AGAIN: u8 = 0x0f;

    const LESS: u8 = 0x10;

    const AND: u8 = 0x13;

    const PICK: u8 = 0x16;

    const FLAG: u8 = 0x17;

    // No line and no flag.
    const NONE: u8 = 32;

    // The constants 3 and 1/3.
    const CONSTANTS: [u8; 16] = [3, 0, 0, 0, 1, 0, 0, 0, 1, 0, 0, 0, 3, 0, 0, 0];

    // The trailer of a file with two constants before so many instructions.
    fn trailer(n: u8) -> [u8; 12] {
        let far = 12 + 2 * u32::from(n);
        let [i0, i1, i2, i3] = far.to_le_bytes();
        let [c0, c1, c2, c3] = (far + 16).to_le_bytes();
        [c0, c1, c2, c3, i0, i1, i2, i3, 2, 0, n, 0]
    }

    // A file of 96 bytes with the constants 3 and 1/3 before the instructions.
    fn file(instructions: &[[u8; 2]]) -> [u8; 96] {
        let mut bytes = [0; 96];
        let trailer = trailer(u8::try_from(instructions.len()).unwrap_or(0));
        let parts = CONSTANTS
            .iter()
            .chain(instructions.as_flattened())
            .chain(&trailer);
        // the last byte first, so that the unused ones come before the parts
        for (to, from) in bytes.iter_mut().rev().zip(parts.rev()) {
            *to = *from;
        }
        bytes
    }

    fn told<T, F: Fault + Drop>(answer: Result<T, F>) -> Result<T, Refusal> {
        answer.map_err(|fault| fault.refusal())
    }

    // the number as it is documented
    fn refused<T>(number: u8, place: u64) -> Result<T, Refusal> {
        Err(Refusal::new(Layer::Pad, number, place))
    }

    fn work<S: ArithmeticScale>(
        pad: &mut Pad<S>,
        instructions: &[[u8; 2]],
        ranges: &mut [Range],
        verdicts: &mut [Verdict],
    ) -> Result<(), Refusal> {
        let bytes = file(instructions);
        let filed = told(FiledSheet::file(&bytes))?;
        let sheet = told(filed.clear().map_err(|uncleared| uncleared.fault))?;
        told(pad.work(&sheet, ranges, verdicts))
    }

    // `range` and `fraction` stand in the tests of ranges too, since a test crate can import no other's private functions; the short name keeps a row on its line
    fn range(lower: i64, upper: i64) -> Range {
        Range::new(lower, upper)
    }

    fn fraction(p: i32, q: u32) -> Option<Fraction> {
        Some(Fraction { p, q })
    }

    fn between(lower: i32, upper: i32) -> Entry {
        Entry::Bounds(fraction(lower, 1), fraction(upper, 1))
    }

    fn enter<S: ArithmeticScale>(pad: &mut Pad<S>, a: u8, entry: Entry) -> Result<(), Refusal> {
        told(pad.enter(a, entry))
    }

    fn line<S: ArithmeticScale>(pad: &Pad<S>, a: u8) -> Result<Option<Range>, Refusal> {
        told(pad.show_line(a))
    }

    fn flag<S: ArithmeticScale>(pad: &Pad<S>, a: u8) -> Result<Verdict, Refusal> {
        told(pad.show_flag(a))
    }

    // Every line and flag is unset, but for one line and one flag.
    // The runtime is a parameter beside the pad, since it comes first in every assertion.
    fn all_unset_but<S: ArithmeticScale>(rt: &impl Abort, pad: &Pad<S>, l: u8, f: u8) {
        for a in 0..32u8 {
            if a != l {
                assert_eq!(rt; line(pad, a), refused(14, u64::from(a)));
            }
            if a != f {
                assert_eq!(rt; flag(pad, a), refused(14, u64::from(a)));
            }
        }
    }

    #[test]
    fn new_pads_show_nothing(rt: HostRuntime) -> Result<(), Fail> {
        let ruled = Pad::new(RuledScale::new(10)?);
        all_unset_but(&rt, &ruled, NONE, NONE);
        assert_eq!(rt; line(&ruled, 32), refused(9, 32));
        assert_eq!(rt; flag(&ruled, 32), refused(9, 32));
        let sliding = Pad::new(SlidingScale);
        all_unset_but(&rt, &sliding, NONE, NONE);
        assert_eq!(rt; line(&sliding, 255), refused(9, 255));
        assert_eq!(rt; flag(&sliding, 255), refused(9, 255));
        Ok(())
    }

    // From 1/3 to 7/3 into the line 5 of a new pad, then without a lower bound.
    fn enters<S: ArithmeticScale>(
        rt: &impl Abort,
        pad: &mut Pad<S>,
        bounded: Range,
        unbounded: Range,
    ) {
        let upper = fraction(7, 3);
        assert_eq!(rt; enter(pad, 5, Entry::Bounds(fraction(1, 3), upper)), Ok(()));
        assert_eq!(rt; line(pad, 5), Ok(Some(bounded)));
        all_unset_but(rt, pad, 5, NONE);
        assert_eq!(rt; enter(pad, 5, Entry::Bounds(None, upper)), Ok(()));
        assert_eq!(rt; line(pad, 5), Ok(Some(unbounded)));
        all_unset_but(rt, pad, 5, NONE);
    }

    #[test]
    fn entries_set_one_line(rt: HostRuntime) -> Result<(), Fail> {
        enters(
            &rt,
            &mut Pad::new(RuledScale::new(10)?),
            range(3, 24),
            range(LOW, 24),
        );
        enters(
            &rt,
            &mut Pad::new(SlidingScale),
            range(1365, 8875),
            range(SLIDING_LOW, 8875),
        );
        Ok(())
    }

    // With the line 7 from 1 to 2 and the flag 3 open, which no refused entry changes.
    fn refuses_entries<S: ArithmeticScale>(
        rt: &impl Abort,
        pad: &mut Pad<S>,
        one_to_two: Range,
        two: Range,
    ) {
        assert_eq!(rt; enter(pad, 7, between(1, 2)), Ok(()));
        assert_eq!(rt;
            work(
                pad,
                &[[LINE, 7], [LINE, 7], [LESS, 0], [FLAG, 3]],
                &mut [two; 2],
                &mut [Verdict::Void],
            ),
            Ok(())
        );
        let none = fraction(1, 0);
        let over = fraction(1, 2147483648);
        let lesser = fraction(1, 2147483647);
        let greater = fraction(1, 2147483646);
        assert_eq!(rt; enter(pad, 32, Entry::Bounds(none, none)), refused(9, 32));
        assert_eq!(rt; enter(pad, 255, Entry::Blank), refused(9, 255));
        assert_eq!(rt; enter(pad, 7, Entry::Bounds(none, none)), refused(10, 0));
        assert_eq!(rt; enter(pad, 7, Entry::Bounds(over, None)), refused(10, 0));
        assert_eq!(rt;
            enter(pad, 7, Entry::Bounds(fraction(2, 1), over)),
            refused(10, 1)
        );
        assert_eq!(rt; enter(pad, 8, Entry::Bounds(None, none)), refused(10, 1));
        assert_eq!(rt; enter(pad, 7, between(2, 1)), refused(11, 7));
        assert_eq!(rt;
            enter(pad, 31, Entry::Bounds(greater, lesser)),
            refused(11, 31)
        );
        assert_eq!(rt; line(pad, 7), Ok(Some(one_to_two)));
        assert_eq!(rt; flag(pad, 3), Ok(Verdict::Open));
        all_unset_but(rt, pad, 7, 3);
        assert_eq!(rt; enter(pad, 7, between(2, 2)), Ok(()));
        assert_eq!(rt; line(pad, 7), Ok(Some(two)));
        assert_eq!(rt; enter(pad, 31, Entry::Bounds(lesser, greater)), Ok(()));
        assert_eq!(rt; line(pad, 31), Ok(Some(range(0, 1))));
    }

    #[test]
    fn refused_entries_change_nothing(rt: HostRuntime) -> Result<(), Fail> {
        refuses_entries(
            &rt,
            &mut Pad::new(RuledScale::new(10)?),
            range(10, 20),
            range(20, 20),
        );
        refuses_entries(
            &rt,
            &mut Pad::new(SlidingScale),
            range(4096, 8192),
            range(8192, 8192),
        );
        Ok(())
    }

    // x, the line 0, is from 1 to 2. The line 1 becomes x + 3, from 4 to 5. Parted by the line 2, from -5 to 3, that is up to -4/5 (line 3) and from 4/3 up (line 4). The line 5 picks x (x + 3), from 4 to 10, since the line 3 is less than x. The flag 7 is x + 3 < x. The line 6 picks between x and x + 3 as x < x is open, so it is from 1 to 5.
    const SHEET: [[u8; 2]; 29] = [
        [LINE, 0],
        [CONSTANT, 0],
        [PLUS, 0],
        [AGAIN, 0],
        [KEEP, 1],
        [LINE, 2],
        [PARTED, 0],
        [KEEP, 4],
        [KEEP, 3],
        [LINE, 3],
        [LINE, 0],
        [LESS, 0],
        [LINE, 0],
        [LINE, 1],
        [TIMES, 0],
        [CONSTANT, 1],
        [PICK, 0],
        [KEEP, 5],
        [LINE, 1],
        [LINE, 0],
        [LESS, 0],
        [FLAG, 7],
        [LINE, 0],
        [LINE, 0],
        [LESS, 0],
        [LINE, 0],
        [LINE, 1],
        [PICK, 0],
        [KEEP, 6],
    ];

    fn works<S: ArithmeticScale>(rt: &impl Abort, pad: &mut Pad<S>, lines: [Range; 7]) {
        assert_eq!(rt; enter(pad, 0, between(1, 2)), Ok(()));
        assert_eq!(rt; enter(pad, 2, between(-5, 3)), Ok(()));
        let mut ranges = [range(1, 2); 4];
        let mut verdicts = [Verdict::Open; 3];
        assert_eq!(rt; work(pad, &SHEET, &mut ranges, &mut verdicts), Ok(()));
        for (a, expected) in (0..7).zip(lines) {
            assert_eq!(rt; line(pad, a), Ok(Some(expected)));
        }
        assert_eq!(rt; line(pad, 7), refused(14, 7));
        assert_eq!(rt; flag(pad, 7), Ok(Verdict::Impossible));
        assert_eq!(rt; flag(pad, 6), refused(14, 6));
        assert_eq!(rt; ranges, [Range::blank(); 4]);
        assert_eq!(rt; verdicts, [Verdict::Void; 3]);
    }

    #[test]
    fn sheets_work(rt: HostRuntime) -> Result<(), Fail> {
        works(
            &rt,
            &mut Pad::new(RuledScale::new(10)?),
            [
                range(10, 20),
                range(40, 50),
                range(-50, 30),
                range(LOW, -8),
                range(13, HIGH),
                range(40, 100),
                range(10, 50),
            ],
        );
        works(
            &rt,
            &mut Pad::new(SlidingScale),
            [
                range(4096, 8192),
                range(12288, 13312),
                range(-13312, 10240),
                range(SLIDING_LOW, -3276),
                range(5461, SLIDING_HIGH),
                range(12288, 17408),
                range(4096, 13312),
            ],
        );
        Ok(())
    }

    // Adds 1/3 to the line 0, from 1 to 2, twice.
    fn works_twice<S: ArithmeticScale>(
        rt: &impl Abort,
        pad: &mut Pad<S>,
        once: Range,
        twice: Range,
    ) -> Result<(), Fail> {
        assert_eq!(rt; enter(pad, 0, between(1, 2)), Ok(()));
        let bytes = file(&[[LINE, 0], [CONSTANT, 1], [PLUS, 0], [KEEP, 0]]);
        let Ok(sheet) = FiledSheet::file(&bytes)?.clear() else {
            return Err(Fail::new("not cleared"));
        };
        let mut ranges = [once; 2];
        assert_eq!(rt; told(pad.work(&sheet, &mut ranges, &mut [])), Ok(()));
        assert_eq!(rt; line(pad, 0), Ok(Some(once)));
        assert_eq!(rt; told(pad.work(&sheet, &mut ranges, &mut [])), Ok(()));
        assert_eq!(rt; line(pad, 0), Ok(Some(twice)));
        Ok(())
    }

    #[test]
    fn sheets_work_twice(rt: HostRuntime) -> Result<(), Fail> {
        works_twice(
            &rt,
            &mut Pad::new(RuledScale::new(10)?),
            range(13, 24),
            range(16, 28),
        )?;
        works_twice(
            &rt,
            &mut Pad::new(SlidingScale),
            range(5461, 8875),
            range(6826, 9558),
        )
    }

    // The lines 3 and 5 are read first, and the line 2 is kept before it is read.
    fn refuses_unset_lines<S: ArithmeticScale>(rt: &impl Abort, pad: &mut Pad<S>, three: Range) {
        let sheet = [
            [LINE, 5],
            [KEEP, 2],
            [LINE, 2],
            [KEEP, 8],
            [LINE, 3],
            [KEEP, 3],
        ];
        let mut ranges = [range(1, 2)];
        assert_eq!(rt; work(pad, &sheet, &mut ranges, &mut []), refused(14, 3));
        all_unset_but(rt, pad, NONE, NONE);
        assert_eq!(rt; enter(pad, 3, Entry::Blank), Ok(()));
        assert_eq!(rt; work(pad, &sheet, &mut ranges, &mut []), refused(14, 5));
        assert_eq!(rt; ranges, [range(1, 2)]);
        all_unset_but(rt, pad, 3, NONE);
        assert_eq!(rt; enter(pad, 5, between(3, 3)), Ok(()));
        assert_eq!(rt; work(pad, &sheet, &mut ranges, &mut []), Ok(()));
        assert_eq!(rt; line(pad, 8), Ok(Some(three)));
        assert_eq!(rt; line(pad, 3), Ok(None));
        assert_eq!(rt;
            work(pad, &[[LINE, 31], [KEEP, 31]], &mut ranges, &mut []),
            refused(14, 31)
        );
        assert_eq!(rt;
            work(
                pad,
                &[[CONSTANT, 0], [KEEP, 31], [LINE, 31], [KEEP, 0]],
                &mut ranges,
                &mut [],
            ),
            Ok(())
        );
        assert_eq!(rt; line(pad, 0), Ok(Some(three)));
    }

    #[test]
    fn unset_lines_are_refused(rt: HostRuntime) -> Result<(), Fail> {
        refuses_unset_lines(&rt, &mut Pad::new(RuledScale::new(10)?), range(30, 30));
        refuses_unset_lines(&rt, &mut Pad::new(SlidingScale), range(10240, 10240));
        Ok(())
    }

    // The sheet needs the line 0, 3 slots for ranges and 2 for verdicts.
    fn refuses_few_slots<S: ArithmeticScale>(rt: &impl Abort, pad: &mut Pad<S>, one_to_two: Range) {
        let sheet = [
            [LINE, 0],
            [KEEP, 1],
            [LINE, 0],
            [LINE, 0],
            [LINE, 0],
            [LESS, 0],
            [AGAIN, 0],
            [LESS, 0],
            [AND, 0],
            [FLAG, 3],
        ];
        let (a, b) = (range(1, 2), range(3, 4));
        let mut two = [a, b];
        let mut three = [a, b, a];
        let mut one_verdict = [Verdict::Open];
        let mut two_verdicts = [Verdict::Certain, Verdict::Impossible];
        assert_eq!(rt; work(pad, &sheet, &mut [], &mut []), refused(14, 0));
        assert_eq!(rt; enter(pad, 0, between(1, 2)), Ok(()));
        assert_eq!(rt; work(pad, &sheet, &mut [], &mut []), refused(15, 3));
        assert_eq!(rt;
            work(pad, &sheet, &mut two, &mut one_verdict),
            refused(15, 3)
        );
        assert_eq!(rt;
            work(pad, &sheet, &mut two, &mut two_verdicts),
            refused(15, 3)
        );
        assert_eq!(rt;
            work(pad, &sheet, &mut three, &mut one_verdict),
            refused(16, 2)
        );
        assert_eq!(rt; line(pad, 0), Ok(Some(one_to_two)));
        all_unset_but(rt, pad, 0, NONE);
        assert_eq!(rt; two, [a, b]);
        assert_eq!(rt; three, [a, b, a]);
        assert_eq!(rt; one_verdict, [Verdict::Open]);
        assert_eq!(rt; two_verdicts, [Verdict::Certain, Verdict::Impossible]);
        assert_eq!(rt; work(pad, &sheet, &mut three, &mut two_verdicts), Ok(()));
        assert_eq!(rt; line(pad, 1), Ok(Some(one_to_two)));
        assert_eq!(rt; flag(pad, 3), Ok(Verdict::Open));
        assert_eq!(rt; three, [Range::blank(); 3]);
        assert_eq!(rt; two_verdicts, [Verdict::Void; 2]);
    }

    #[test]
    fn few_slots_are_refused(rt: HostRuntime) -> Result<(), Fail> {
        refuses_few_slots(&rt, &mut Pad::new(RuledScale::new(10)?), range(10, 20));
        refuses_few_slots(&rt, &mut Pad::new(SlidingScale), range(4096, 8192));
        Ok(())
    }

    // The line 0 is blank. The line 1, from 1 to 2, parted by 3 is blank (line 2) and from 1/3 to 2/3 (line 3); the flag 4 is void.
    fn shows_blanks<S: ArithmeticScale>(rt: &impl Abort, pad: &mut Pad<S>, thirds: Range) {
        assert_eq!(rt; enter(pad, 0, Entry::Blank), Ok(()));
        assert_eq!(rt; line(pad, 0), Ok(None));
        assert_eq!(rt; enter(pad, 1, between(1, 2)), Ok(()));
        let sheet = [
            [LINE, 1],
            [CONSTANT, 0],
            [PARTED, 0],
            [KEEP, 3],
            [KEEP, 2],
            [LINE, 2],
            [LINE, 1],
            [LESS, 0],
            [FLAG, 4],
            [LINE, 0],
            [LINE, 1],
            [PLUS, 0],
            [KEEP, 5],
        ];
        assert_eq!(rt;
            work(pad, &sheet, &mut [thirds; 2], &mut [Verdict::Open]),
            Ok(())
        );
        assert_eq!(rt; line(pad, 2), Ok(None));
        assert_eq!(rt; line(pad, 3), Ok(Some(thirds)));
        assert_eq!(rt; line(pad, 5), Ok(None));
        assert_eq!(rt; flag(pad, 4), Ok(Verdict::Void));
        pad.wipe();
        all_unset_but(rt, pad, NONE, NONE);
        assert_eq!(rt;
            work(pad, &sheet, &mut [thirds; 2], &mut [Verdict::Open]),
            refused(14, 0)
        );
    }

    #[test]
    fn blanks_are_shown_and_wiped(rt: HostRuntime) -> Result<(), Fail> {
        shows_blanks(&rt, &mut Pad::new(RuledScale::new(10)?), range(3, 7));
        shows_blanks(&rt, &mut Pad::new(SlidingScale), range(1365, 2731));
        Ok(())
    }
}
