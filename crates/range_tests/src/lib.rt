//! Worked examples of the operations on ranges, on both scales, against values worked out by hand.
//!
//! On the ruled scale with division 10 the code c is c/10. On the sliding scale 1 is the code 4,096, 2 is 8,192, 3 is 10,240, 4 is 12,288, 5 is 13,312, 6 is 14,336, 9 is 16,896, 12 is 18,432 and 15 is 19,968,
//! and the codes from -8,192 to 8,192 count 4096ths.
#![tactic(auto)]

#[cfg(test)]
mod tests {
    use number::Fraction;
    use range::*;
    use scale::*;
    use std::test::Fail;

    const LOW: i64 = -21474836471;

    const HIGH: i64 = 21474836471;

    const SLIDING_LOW: i64 = -81920;

    const SLIDING_HIGH: i64 = 81920;

    // `range` and `fraction` stand in the tests of the pad too, since a test crate can import no other's private functions; the short name keeps a row on its line
    fn range(lower: i64, upper: i64) -> Range {
        Range::new(lower, upper)
    }

    fn fraction(p: i32, q: u32) -> Option<Fraction> {
        Some(Fraction { p, q })
    }

    // The fraction as both bounds.
    fn entered(p: i32, q: u32) -> Entry {
        Entry::Bounds(fraction(p, q), fraction(p, q))
    }

    #[test]
    fn entries_round_outwards(rt: HostRuntime) -> Result<(), Fail> {
        let tenths = RuledScale::new(10)?;
        assert_eq!(rt; entered(1, 3).hull(&tenths), range(3, 4));
        assert_eq!(rt; entered(-1, 3).hull(&tenths), range(-4, -3));
        assert_eq!(rt;
            Entry::Bounds(None, fraction(5, 2)).hull(&tenths),
            range(LOW, 25)
        );
        assert_eq!(rt;
            Entry::Bounds(fraction(5, 2), None).hull(&tenths),
            range(25, HIGH)
        );
        assert_eq!(rt;
            Entry::Bounds(fraction(2, 1), fraction(1, 1)).hull(&tenths),
            Range::blank()
        );
        assert_eq!(rt; Entry::Blank.hull(&tenths), Range::blank());
        assert_eq!(rt; entered(8193, 4096).hull(&SlidingScale), range(8192, 8193));
        Ok(())
    }

    #[test]
    fn sums_and_differences(rt: HostRuntime) -> Result<(), Fail> {
        let tenths = RuledScale::new(10)?;
        assert_eq!(rt; sum(&tenths, range(10, 20), range(-50, 30)), range(-40, 50));
        assert_eq!(rt;
            difference(&tenths, range(10, 20), range(-50, 30)),
            range(-20, 70)
        );
        assert_eq!(rt; sum(&tenths, range(10, HIGH), range(1, 1)), range(11, HIGH));
        assert_eq!(rt; sum(&tenths, Range::blank(), range(1, 1)), Range::blank());
        assert_eq!(rt; negation(&tenths, range(-20, 30)), range(-30, 20));
        let ones = RuledScale::new(1)?;
        assert_eq!(rt;
            sum(&ones, range(2147483647, 2147483647), range(1, 1)),
            range(2147483647, 2147483648)
        );
        assert_eq!(rt;
            sum(&SlidingScale, range(4096, 8192), range(4096, 4096)),
            range(8192, 10240)
        );
        Ok(())
    }

    #[test]
    fn products(rt: HostRuntime) -> Result<(), Fail> {
        let tenths = RuledScale::new(10)?;
        assert_eq!(rt; product(&tenths, range(3, 3), range(5, 5)), range(1, 2));
        assert_eq!(rt;
            product(&tenths, range(-20, 30), range(-50, 40)),
            range(-150, 120)
        );
        assert_eq!(rt;
            product(&tenths, range(0, 0), range(LOW, HIGH)),
            range(0, 0)
        );
        assert_eq!(rt;
            product(&tenths, range(10, HIGH), range(-10, 10)),
            range(LOW, HIGH)
        );
        assert_eq!(rt; square(&tenths, range(-20, 30)), range(-60, 90));
        assert_eq!(rt;
            product(&SlidingScale, range(-8192, 10240), range(-13312, 12288)),
            range(-19968, 18432)
        );
        assert_eq!(rt;
            product(&SlidingScale, range(0, 0), range(SLIDING_LOW, SLIDING_HIGH)),
            range(0, 0)
        );
        Ok(())
    }

    #[test]
    fn quotients(rt: HostRuntime) -> Result<(), Fail> {
        let tenths = RuledScale::new(10)?;
        assert_eq!(rt;
            quotient(&tenths, range(10, 10), range(10, HIGH)),
            range(0, 10)
        );
        assert_eq!(rt;
            quotient(&tenths, range(10, 10), range(0, 0)),
            Range::blank()
        );
        assert_eq!(rt;
            quotient(&tenths, range(10, 20), range(-50, 30)),
            range(LOW, HIGH)
        );
        let (below, above) = parted(&tenths, range(10, 20), range(-50, 30));
        assert_eq!(rt; below, range(LOW, -2));
        assert_eq!(rt; above, range(3, HIGH));
        let (below, above) = parted(&tenths, range(10, 20), range(10, 30));
        assert_eq!(rt; below, Range::blank());
        assert_eq!(rt; above, range(3, 20));
        let (below, above) = parted(&SlidingScale, range(4096, 8192), range(-13312, 10240));
        assert_eq!(rt; below, range(SLIDING_LOW, -819));
        assert_eq!(rt; above, range(1365, SLIDING_HIGH));
        assert_eq!(rt;
            quotient(&SlidingScale, range(4096, 4096), range(4096, SLIDING_HIGH)),
            range(0, 4096)
        );
        Ok(())
    }

    #[test]
    fn orders(rt: HostRuntime) -> Result<(), Fail> {
        let tenths = RuledScale::new(10)?;
        assert_eq!(rt; join(&tenths, range(10, 20), range(30, 40)), range(10, 40));
        assert_eq!(rt; meet(&tenths, range(10, 30), range(20, 40)), range(20, 30));
        assert_eq!(rt; meet(&tenths, range(10, 20), range(30, 40)), Range::blank());
        assert_eq!(rt;
            lesser(&SlidingScale, range(1, 8), range(2, 4)),
            range(1, 4)
        );
        assert_eq!(rt;
            greater(&SlidingScale, range(1, 8), range(2, 4)),
            range(2, 8)
        );
        assert_eq!(rt;
            pick(&tenths, Verdict::Open, range(10, 20), range(30, 40)),
            range(10, 40)
        );
        assert_eq!(rt;
            pick(&tenths, Verdict::Impossible, range(10, 20), range(30, 40)),
            range(30, 40)
        );
        assert_eq!(rt;
            Range::new(i64::MIN, i64::MAX).copy(&tenths),
            range(LOW, HIGH)
        );
        assert_eq!(rt; constant(&tenths, Fraction { p: 1, q: 0 }), Range::blank());
        Ok(())
    }

    #[test]
    fn verdicts(rt: HostRuntime) -> Result<(), Fail> {
        let tenths = RuledScale::new(10)?;
        assert_eq!(rt; less(&tenths, range(10, 20), range(20, 30)), Verdict::Open);
        assert_eq!(rt;
            at_most(&tenths, range(10, 20), range(20, 30)),
            Verdict::Certain
        );
        assert_eq!(rt;
            equal(&tenths, range(10, 10), range(10, 10)),
            Verdict::Certain
        );
        assert_eq!(rt;
            equal(&tenths, range(10, 20), range(30, 40)),
            Verdict::Impossible
        );
        assert_eq!(rt;
            less(&SlidingScale, range(10, 20), range(5, 9)),
            Verdict::Impossible
        );
        assert_eq!(rt;
            less(&SlidingScale, Range::blank(), range(5, 9)),
            Verdict::Void
        );
        assert_eq!(rt; Verdict::Open.and(Verdict::Impossible), Verdict::Impossible);
        assert_eq!(rt; Verdict::Impossible.and(Verdict::Void), Verdict::Void);
        assert_eq!(rt; Verdict::Open.or(Verdict::Certain), Verdict::Certain);
        assert_eq!(rt; Verdict::Certain.not(), Verdict::Impossible);
        Ok(())
    }

    // What the tests above try on one scale only.
    #[test]
    fn on_the_other_scale(rt: HostRuntime) -> Result<(), Fail> {
        assert_eq!(rt;
            difference(&SlidingScale, range(4096, 8192), range(4096, 4096)),
            range(0, 4096)
        );
        assert_eq!(rt;
            negation(&SlidingScale, range(-8192, 10240)),
            range(-10240, 8192)
        );
        assert_eq!(rt;
            square(&SlidingScale, range(-8192, 10240)),
            range(-14336, 16896)
        );
        assert_eq!(rt;
            constant(&SlidingScale, Fraction { p: 1, q: 3 }),
            range(1365, 1366)
        );
        assert_eq!(rt; join(&SlidingScale, range(1, 2), range(3, 4)), range(1, 4));
        assert_eq!(rt; meet(&SlidingScale, range(1, 3), range(2, 4)), range(2, 3));
        assert_eq!(rt;
            pick(&SlidingScale, Verdict::Certain, range(1, 2), range(3, 4)),
            range(1, 2)
        );
        assert_eq!(rt;
            at_most(&SlidingScale, range(10, 20), range(20, 30)),
            Verdict::Certain
        );
        assert_eq!(rt;
            equal(&SlidingScale, range(10, 10), range(10, 10)),
            Verdict::Certain
        );
        let tenths = RuledScale::new(10)?;
        assert_eq!(rt;
            lesser(&tenths, range(10, 80), range(20, 40)),
            range(10, 40)
        );
        assert_eq!(rt;
            greater(&tenths, range(10, 80), range(20, 40)),
            range(20, 80)
        );
        Ok(())
    }
}
