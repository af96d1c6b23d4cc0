//! Tests of filing and clearing, on sheets written by hand.
#![tactic(auto)]

#[cfg(test)]
mod tests {
    use fault::{Fault, Layer, Refusal};
    use number::Fraction;
    use sheet::{ClearedSheet, FiledSheet, Instruction};
    use std::process::Abort;
    use std::test::Fail;

    // The trailer: the distances of the constants and of the instructions, and their counts.
    fn trailer(
        constants_far: u32,
        instructions_far: u32,
        constants: u16,
        instructions: u16,
    ) -> [u8; 12] {
        let [a, b, c, d] = constants_far.to_le_bytes();
        let [e, f, g, h] = instructions_far.to_le_bytes();
        let [i, j] = constants.to_le_bytes();
        let [k, l] = instructions.to_le_bytes();
        [a, b, c, d, e, f, g, h, i, j, k, l]
    }

    // The bytes end with the part.
    fn put_last<'a, I: DoubleEndedIterator<Item = &'a u8>>(bytes: &mut [u8], part: I)
        requires { I.can_next_back part }
    {
        for (to, byte) in bytes.iter_mut().rev().zip(part.rev()) {
            *to = *byte;
        }
    }

    // A sheet of 64 bytes: the constants and the instructions stand at its end.
    fn sheet(constants: &[u8], instructions: &[u8]) -> [u8; 64] {
        let k = (constants.len() & 0xff) as u16;
        let n = (instructions.len() & 0xff) as u16;
        let far = 12 + u32::from(n);
        let trailer = trailer(far + u32::from(k), far, k / 8, n / 2);
        let parts = constants.iter().chain(instructions).chain(&trailer);
        let mut bytes = [0; 64];
        put_last(&mut bytes, parts);
        bytes
    }

    fn filing(bytes: &[u8]) -> Option<Refusal> {
        FiledSheet::file(bytes).err().map(|fault| fault.refusal())
    }

    fn clearing(bytes: &[u8]) -> Option<Refusal> {
        match FiledSheet::file(bytes) {
            Ok(sheet) => sheet
                .clear()
                .err()
                .map(|uncleared| uncleared.fault.refusal()),
            Err(fault) => Some(fault.refusal()),
        }
    }

    // the number as it is documented
    fn refused(layer: Layer, number: u8, place: u64) -> Option<Refusal> {
        Some(Refusal::new(layer, number, place))
    }

    #[test]
    fn lengths(rt: HostRuntime) {
        assert_eq!(rt; filing(&[0; 11]), refused(Layer::Filing, 1, 11));
        // long enough, but without an instruction
        assert_eq!(rt; filing(&[0; 12]), refused(Layer::Filing, 2, 1));
        assert_eq!(rt; filing(&[0; 32768]), refused(Layer::Filing, 2, 1));
        assert_eq!(rt; filing(&[0; 32769]), refused(Layer::Filing, 1, 32769));
    }

    #[test]
    fn instruction_counts(rt: HostRuntime) {
        let mut one = [0; 14];
        put_last(&mut one, trailer(14, 14, 0, 1).iter());
        assert_eq!(rt; filing(&one), None);
        let mut many = [0; 8204];
        put_last(&mut many, trailer(8204, 8204, 0, 4096).iter());
        assert_eq!(rt; filing(&many), None);
        let mut over = [0; 8206];
        put_last(&mut over, trailer(8206, 8206, 0, 4097).iter());
        assert_eq!(rt; filing(&over), refused(Layer::Filing, 2, 1));
    }

    #[test]
    fn constant_counts(rt: HostRuntime) {
        let mut many = [0; 526];
        put_last(&mut many, trailer(526, 14, 64, 1).iter());
        assert_eq!(rt; filing(&many), None);
        let mut over = [0; 534];
        put_last(&mut over, trailer(534, 14, 65, 1).iter());
        assert_eq!(rt; filing(&over), refused(Layer::Filing, 2, 0));
        // the constants are counted first
        put_last(&mut over, trailer(534, 14, 65, 0).iter());
        assert_eq!(rt; filing(&over), refused(Layer::Filing, 2, 0));
    }

    #[test]
    fn distances(rt: HostRuntime) {
        let mut bytes = [0; 40];
        put_last(&mut bytes, trailer(40, 15, 1, 2).iter());
        assert_eq!(rt; filing(&bytes), refused(Layer::Filing, 3, 0));
        put_last(&mut bytes, trailer(23, 16, 1, 2).iter());
        assert_eq!(rt; filing(&bytes), refused(Layer::Filing, 3, 1));
        put_last(&mut bytes, trailer(24, 16, 1, 2).iter());
        assert_eq!(rt; filing(&bytes), None);
        put_last(&mut bytes, trailer(41, 16, 1, 2).iter());
        assert_eq!(rt; filing(&bytes), refused(Layer::Filing, 3, 1));
        // the instructions come first
        put_last(&mut bytes, trailer(41, 15, 1, 2).iter());
        assert_eq!(rt; filing(&bytes), refused(Layer::Filing, 3, 0));
        // in 32 bits this distance and 16 would be 0
        put_last(&mut bytes, trailer(40, 0xffff_fff0, 2, 2).iter());
        assert_eq!(rt; filing(&bytes), refused(Layer::Filing, 3, 1));
    }

    #[test]
    fn constants(rt: HostRuntime) {
        let one = [1, 0, 0, 0, 1, 0, 0, 0, 1, 0, 0, 0, 0xff, 0xff, 0xff, 0x7f];
        let zero = [1, 0, 0, 0, 1, 0, 0, 0, 1, 0, 0, 0, 0, 0, 0, 0];
        let over = [1, 0, 0, 0, 0, 0, 0, 0x80, 1, 0, 0, 0, 0, 0, 0, 0];
        assert_eq!(rt; clearing(&sheet(&one, &[0x02, 1, 0x03, 0])), None);
        // before the instructions, which are at fault too
        assert_eq!(rt;
            clearing(&sheet(&zero, &[0x00, 0])),
            refused(Layer::Clearing, 4, 1)
        );
        assert_eq!(rt;
            clearing(&sheet(&over, &[0x02, 0, 0x03, 0])),
            refused(Layer::Clearing, 4, 0)
        );
        assert_eq!(rt;
            clearing(&sheet(&one, &[0x02, 2, 0x03, 0])),
            refused(Layer::Clearing, 6, 0)
        );
    }

    #[test]
    fn instructions(rt: HostRuntime) {
        assert_eq!(rt; clearing(&sheet(&[], &[0x01, 31, 0x03, 31])), None);
        assert_eq!(rt;
            clearing(&sheet(&[], &[0x01, 0, 0x18, 9])),
            refused(Layer::Clearing, 5, 1)
        );
        assert_eq!(rt;
            clearing(&sheet(&[], &[0x01, 32, 0x18, 0])),
            refused(Layer::Clearing, 6, 0)
        );
        assert_eq!(rt;
            clearing(&sheet(&[], &[0x01, 0, 0x03, 32])),
            refused(Layer::Clearing, 6, 1)
        );
        assert_eq!(rt;
            clearing(&sheet(&[], &[0x01, 0, 0x04, 1])),
            refused(Layer::Clearing, 6, 1)
        );
        assert_eq!(rt;
            clearing(&sheet(&[], &[0x17, 32])),
            refused(Layer::Clearing, 6, 0)
        );
        assert_eq!(rt;
            clearing(&sheet(&[], &[0x01, 0, 0x04, 0])),
            refused(Layer::Clearing, 7, 1)
        );
        assert_eq!(rt;
            clearing(&sheet(&[], &[0x01, 0, 0x0f, 0, 0x16, 0])),
            refused(Layer::Clearing, 7, 2)
        );
        assert_eq!(rt;
            clearing(&sheet(&[], &[0x01, 0])),
            refused(Layer::Clearing, 8, 1)
        );
        assert_eq!(rt;
            clearing(&sheet(&[], &[0x01, 0, 0x0f, 0, 0x10, 0])),
            refused(Layer::Clearing, 8, 3)
        );
    }

    // What is read of a cleared sheet: depths 2 and 1; line 0 is read first, line 1 is kept before it is read.
    fn look(rt: &impl Abort, sheet: ClearedSheet) -> Result<(), Fail> {
        assert_eq!(rt; sheet.len(), 8);
        assert_eq!(rt;
            sheet.instruction(0),
            Some(Instruction::Constant(Fraction { p: -3, q: 2 }))
        );
        assert_eq!(rt; sheet.instruction(1), Some(Instruction::Keep(1)));
        assert_eq!(rt; sheet.instruction(4), Some(Instruction::AtMost));
        assert_eq!(rt; sheet.instruction(7), Some(Instruction::Keep(0)));
        assert_eq!(rt; sheet.instruction(8), None);
        assert_eq!(rt; sheet.instructions().count(), 8);
        assert_eq!(rt; sheet.instructions().last(), Some(Instruction::Keep(0)));
        assert_eq!(rt; sheet.range_depth(), 2);
        assert_eq!(rt; sheet.verdict_depth(), 1);
        assert!(rt; sheet.reads(0) && !sheet.reads(1));
        assert!(rt; !sheet.reads(2) && !sheet.reads(200));
        assert_eq!(rt; sheet.into_bytes().len(), 64);
        Ok(())
    }

    #[test]
    fn looks(rt: HostRuntime) -> Result<(), Fail> {
        let constant = [0xfd, 0xff, 0xff, 0xff, 2, 0, 0, 0];
        let bytes = sheet(
            &constant,
            &[
                0x02, 0, 0x03, 1, 0x01, 0, 0x01, 1, 0x11, 0, 0x17, 3, 0x01, 0, 0x03, 0,
            ],
        );
        match FiledSheet::file(&bytes)?.clear() {
            Ok(sheet) => look(&rt, sheet),
            Err(_) => Err(Fail::new("refused")),
        }
    }

    #[test]
    fn longest(rt: HostRuntime) {
        let mut bytes = [0; 8204];
        // line 0 is put, and kept, over and over
        for (to, byte) in bytes.iter_mut().zip([0x01, 0, 0x03, 0].iter().cycle()) {
            *to = *byte;
        }
        put_last(&mut bytes, trailer(8204, 8204, 0, 4096).iter());
        assert_eq!(rt; clearing(&bytes), None);
    }
}
