//! Tests of the scales, on values worked out by hand.
#![tactic(auto)]

#[cfg(test)]
mod tests {
    use fault::{Fault, Layer, Refusal};
    use number::Fraction;
    use scale::{ArithmeticScale, OrderedScale, Rounding, RuledScale, SlidingScale};
    use std::test::Fail;

    // ---- each result as the code below and the code above

    fn both<F: Fn(Rounding) -> i64>(code: F) -> (i64, i64)
        requires { F.IsAlwaysCallable code }
    {
        (code(Rounding::Down), code(Rounding::Up))
    }

    fn sums<S: ArithmeticScale>(s: &S, a: i64, b: i64) -> (i64, i64) {
        both(|rounding| s.sum(rounding, a, b))
    }

    fn differences<S: ArithmeticScale>(s: &S, a: i64, b: i64) -> (i64, i64) {
        both(|rounding| s.difference(rounding, a, b))
    }

    fn products<S: ArithmeticScale>(s: &S, a: i64, b: i64) -> (i64, i64) {
        both(|rounding| s.product(rounding, a, b))
    }

    fn quotients<S: ArithmeticScale>(s: &S, a: i64, b: i64) -> (i64, i64) {
        both(|rounding| s.quotient(rounding, a, b))
    }

    fn fractions<S: ArithmeticScale>(s: &S, p: i32, q: u32) -> (i64, i64) {
        both(|rounding| s.fraction(rounding, Fraction { p, q }))
    }

    fn told<S: OrderedScale>(s: &S) -> (i64, i64, i64) {
        (s.lowest(), s.zero(), s.highest())
    }

    // Rule 12, at the division.
    fn refusal(division: u32) -> Refusal {
        Refusal::new(Layer::Scale, 12, division as u64)
    }

    fn refused(division: u32) -> Option<Refusal> {
        RuledScale::new(division).err().map(|fault| fault.refusal())
    }

    // ---- the ruled scale

    #[test]
    fn divisions(rt: HostRuntime) -> Result<(), Fail> {
        assert_eq!(rt; refused(0), Some(refusal(0)));
        assert_eq!(rt; refused(65537), Some(refusal(65537)));
        assert_eq!(rt; refused(u32::MAX), Some(refusal(u32::MAX)));
        let _first = RuledScale::new(1)?;
        let _last = RuledScale::new(65536)?;
        Ok(())
    }

    #[test]
    fn ruled_told(rt: HostRuntime) -> Result<(), Fail> {
        assert_eq!(rt; told(&RuledScale::new(10)?), (-21474836471, 0, 21474836471));
        assert_eq!(rt;
            told(&RuledScale::new(65536)?),
            (-140737488289793, 0, 140737488289793)
        );
        assert_eq!(rt; told(&RuledScale::new(1)?), (-2147483648, 0, 2147483648));
        Ok(())
    }

    #[test]
    fn ruled_fractions(rt: HostRuntime) -> Result<(), Fail> {
        let s = RuledScale::new(10)?;
        assert_eq!(rt; fractions(&s, 1, 3), (3, 4));
        assert_eq!(rt; fractions(&s, -1, 3), (-4, -3));
        assert_eq!(rt; fractions(&s, 7, 10), (7, 7));
        assert_eq!(rt; fractions(&s, -7, 10), (-7, -7));
        assert_eq!(rt; fractions(&s, 0, 7), (0, 0));
        assert_eq!(rt; fractions(&s, 1, 2147483647), (0, 1));
        assert_eq!(rt; fractions(&s, -1, 2147483647), (-1, 0));
        Ok(())
    }

    #[test]
    fn ruled_operations(rt: HostRuntime) -> Result<(), Fail> {
        let s = RuledScale::new(10)?;
        assert_eq!(rt; sums(&s, 3, 5), (8, 8));
        assert_eq!(rt; sums(&s, 3, -5), (-2, -2));
        assert_eq!(rt; differences(&s, 3, 5), (-2, -2));
        assert_eq!(rt; differences(&s, 3, -5), (8, 8));
        // 0.3 * 0.5 is 0.15
        assert_eq!(rt; products(&s, 3, 5), (1, 2));
        assert_eq!(rt; products(&s, -3, 5), (-2, -1));
        assert_eq!(rt; products(&s, -3, -5), (1, 2));
        assert_eq!(rt; products(&s, 4, 5), (2, 2));
        // 1 / 0.3 is 3 1/3
        assert_eq!(rt; quotients(&s, 10, 3), (33, 34));
        assert_eq!(rt; quotients(&s, -10, 3), (-34, -33));
        Ok(())
    }

    #[test]
    fn ruled_quotient_signs(rt: HostRuntime) -> Result<(), Fail> {
        let s = RuledScale::new(1)?;
        assert_eq!(rt; quotients(&s, -10, 3), (-4, -3));
        assert_eq!(rt; quotients(&s, 10, -3), (-4, -3));
        assert_eq!(rt; quotients(&s, -10, -3), (3, 4));
        assert_eq!(rt; quotients(&s, -9, 3), (-3, -3));
        Ok(())
    }

    #[test]
    fn ruled_without_number(rt: HostRuntime) -> Result<(), Fail> {
        let s = RuledScale::new(10)?;
        let none = (-21474836471, 21474836471);
        assert_eq!(rt; quotients(&s, 7, 0), none);
        assert_eq!(rt; quotients(&s, 0, 0), none);
        assert_eq!(rt; fractions(&s, 1, 0), none);
        assert_eq!(rt; fractions(&s, 0, 2147483648), none);
        assert_eq!(rt; fractions(&s, 1, u32::MAX), none);
        assert_eq!(rt; sums(&s, i64::MIN, i64::MAX), none);
        assert_eq!(rt; sums(&s, 1, -21474836471), none);
        assert_eq!(rt; differences(&s, 21474836471, 21474836471), none);
        assert_eq!(rt; differences(&s, 0, i64::MIN), none);
        assert_eq!(rt; products(&s, 0, i64::MAX), none);
        assert_eq!(rt; products(&s, -21474836471, 0), none);
        assert_eq!(rt; quotients(&s, 21474836471, 5), none);
        assert_eq!(rt; quotients(&s, 0, i64::MIN), none);
        Ok(())
    }

    #[test]
    fn ruled_ends(rt: HostRuntime) -> Result<(), Fail> {
        let s = RuledScale::new(1)?;
        let beyond = (2147483647, 2147483648);
        let beneath = (-2147483648, -2147483647);
        assert_eq!(rt; sums(&s, 2147483647, 1), beyond);
        assert_eq!(rt; sums(&s, 2147483646, 1), (2147483647, 2147483647));
        assert_eq!(rt; sums(&s, -2147483647, -1), beneath);
        assert_eq!(rt; differences(&s, 2147483647, -2147483647), beyond);
        assert_eq!(rt; differences(&s, -2147483647, 1), beneath);
        assert_eq!(rt; products(&s, 2147483647, 2147483647), beyond);
        assert_eq!(rt; products(&s, 2147483647, -2147483647), beneath);
        assert_eq!(rt; fractions(&s, -2147483648, 1), beneath);
        assert_eq!(rt; fractions(&s, -2147483647, 1), (-2147483647, -2147483647));
        Ok(())
    }

    #[test]
    fn finest_ends(rt: HostRuntime) -> Result<(), Fail> {
        let s = RuledScale::new(65536)?;
        let last = 140737488289792;
        let beyond = (last, 140737488289793);
        let beneath = (-140737488289793, -last);
        assert_eq!(rt; products(&s, last, last), beyond);
        assert_eq!(rt; products(&s, -last, last), beneath);
        assert_eq!(rt; products(&s, last, 65536), (last, last));
        assert_eq!(rt; products(&s, last, 65537), beyond);
        assert_eq!(rt; products(&s, last, 1), (2147483647, 2147483647));
        assert_eq!(rt; products(&s, last - 1, 1), (2147483646, 2147483647));
        assert_eq!(rt; quotients(&s, last, 1), beyond);
        assert_eq!(rt; quotients(&s, last, -65535), beneath);
        assert_eq!(rt; quotients(&s, last, -65536), (-last, -last));
        Ok(())
    }

    // ---- the sliding scale

    #[test]
    fn sliding_fractions(rt: HostRuntime) {
        let s = SlidingScale;
        assert_eq!(rt; told(&s), (-81920, 0, 81920));
        assert_eq!(rt; fractions(&s, 0, 5), (0, 0));
        assert_eq!(rt; fractions(&s, 1, 1), (4096, 4096));
        assert_eq!(rt; fractions(&s, 2, 1), (8192, 8192));
        assert_eq!(rt; fractions(&s, -3, 1), (-10240, -10240));
        assert_eq!(rt; fractions(&s, 8191, 4096), (8191, 8191));
        assert_eq!(rt; fractions(&s, 8193, 4096), (8192, 8193));
        assert_eq!(rt; fractions(&s, -8193, 4096), (-8193, -8192));
        assert_eq!(rt; fractions(&s, 1, 3), (1365, 1366));
        assert_eq!(rt; fractions(&s, -1, 3), (-1366, -1365));
        assert_eq!(rt; fractions(&s, 1, 2147483647), (0, 1));
        assert_eq!(rt; fractions(&s, -1, 2147483647), (-1, 0));
    }

    #[test]
    fn sliding_operations(rt: HostRuntime) {
        let s = SlidingScale;
        assert_eq!(rt; sums(&s, 4096, 4096), (8192, 8192));
        // 2 + 1/4096
        assert_eq!(rt; sums(&s, 8192, 1), (8192, 8193));
        assert_eq!(rt; differences(&s, 8192, 1), (8191, 8191));
        assert_eq!(rt; differences(&s, -8192, 1), (-8193, -8192));
        assert_eq!(rt; products(&s, 8192, -8192), (-12288, -12288));
        assert_eq!(rt; products(&s, 4095, 4095), (4094, 4095));
        // 4096 * (8194/4096)^2 is between 16392 and 16393, and 12290 counts 4098 * 4 = 16392
        assert_eq!(rt; products(&s, 8193, 8193), (12290, 12291));
        assert_eq!(rt; products(&s, 1, 1), (0, 1));
        assert_eq!(rt; products(&s, -1, 1), (-1, 0));
        assert_eq!(rt; quotients(&s, 4096, -8192), (-2048, -2048));
        // 1 / 3
        assert_eq!(rt; quotients(&s, 4096, 10240), (1365, 1366));
        assert_eq!(rt; quotients(&s, -4096, 10240), (-1366, -1365));
    }

    // The greatest number is 8191 * 2^18 / 4096, which is 524224.
    #[test]
    fn sliding_ends(rt: HostRuntime) {
        let s = SlidingScale;
        let beyond = (81919, 81920);
        let beneath = (-81920, -81919);
        assert_eq!(rt; fractions(&s, 524224, 1), (81919, 81919));
        assert_eq!(rt; fractions(&s, 524225, 1), beyond);
        assert_eq!(rt; fractions(&s, -524225, 1), beneath);
        assert_eq!(rt; fractions(&s, 2147483647, 1), beyond);
        assert_eq!(rt; fractions(&s, -2147483648, 1), beneath);
        assert_eq!(rt; sums(&s, 81919, 1), beyond);
        assert_eq!(rt; sums(&s, 81919, -1), (81918, 81919));
        assert_eq!(rt; sums(&s, -81919, -81919), beneath);
        assert_eq!(rt; differences(&s, 81919, -81919), beyond);
        assert_eq!(rt; products(&s, 81919, 81919), beyond);
        assert_eq!(rt; products(&s, -81919, 4097), beneath);
        assert_eq!(rt; products(&s, -81919, 4096), (-81919, -81919));
        assert_eq!(rt; quotients(&s, 81919, -1), beneath);
        assert_eq!(rt; quotients(&s, -1, 81919), (-1, 0));
    }

    #[test]
    fn sliding_without_number(rt: HostRuntime) {
        let s = SlidingScale;
        let none = (-81920, 81920);
        assert_eq!(rt; quotients(&s, 4096, 0), none);
        assert_eq!(rt; fractions(&s, 1, 0), none);
        assert_eq!(rt; fractions(&s, 0, 2147483648), none);
        assert_eq!(rt; sums(&s, 81920, -81920), none);
        assert_eq!(rt; sums(&s, i64::MIN, 0), none);
        assert_eq!(rt; differences(&s, i64::MAX, i64::MAX), none);
        assert_eq!(rt; differences(&s, 0, -81920), none);
        assert_eq!(rt; products(&s, 0, i64::MAX), none);
        assert_eq!(rt; products(&s, i64::MIN, 0), none);
        assert_eq!(rt; quotients(&s, 81920, 1), none);
        assert_eq!(rt; quotients(&s, 0, i64::MIN), none);
    }
}
