//! Tests of what sheetrun prints, on inputs and texts worked out by hand.
#![tactic(auto)]

#[cfg(test)]
mod tests {
    use program::printed_board;
    use std::alloc::Global;
    use std::process::Abort;
    use std::test::Fail;

    // Line 0 from 1/3 to 5/2, line 1 unbounded, line 2 up to -1, line 3 blank.
    const ENTRIES: [u8; 73] = [
        4, //
        0, 0, 1, 0, 0, 0, 3, 0, 0, 0, 5, 0, 0, 0, 2, 0, 0, 0, //
        1, 3, 9, 9, 9, 9, 0, 0, 0, 0, 9, 9, 9, 9, 0, 0, 0, 0, //
        2, 1, 0, 0, 0, 0, 0, 0, 0, 0, 255, 255, 255, 255, 1, 0, 0, 0, //
        3, 4, 0, 0, 0, 0, 0, 0, 0, 0, 0, 0, 0, 0, 0, 0, 0, 0,
    ];

    // One instruction, and its trailer.
    const LINE_9: [u8; 14] = [1, 9, 14, 0, 0, 0, 14, 0, 0, 0, 0, 0, 1, 0];

    fn prints(rt: &impl Abort, heap: Global, parts: &[&[u8]], text: &str) -> Result<(), Fail> {
        let mut input = Vec::new(heap);
        for part in parts {
            input.extend_from_slice(*part)?;
        }
        let said = printed_board(heap, input.as_slice())?;
        assert_eq!(rt; said.as_str(), text);
        Ok(())
    }

    #[test]
    fn lines_and_flags(rt: HostRuntime) -> Result<(), Fail> {
        let heap = rt.alloc();
        // line 0 < line 2 into flag 5, line 0 ≤ line 1 into flag 6, line 0 = line 3 into flag 7
        let sheet = [
            1, 0, 1, 2, 0x10, 0, 0x17, 5, 1, 0, 1, 1, 0x11, 0, 0x17, 6, 1, 0, 1, 3, 0x12, 0, 0x17,
            7, //
            36, 0, 0, 0, 36, 0, 0, 0, 0, 0, 12, 0,
        ];
        prints(
            &rt,
            heap,
            &[&ENTRIES, &sheet],
            "line 0 33 250\nline 1 -inf +inf\nline 2 -inf -100\nline 3 blank\nflag 5 impossible\nflag 6 open\nflag 7 void\n",
        )
    }

    #[test]
    fn a_certain_flag(rt: HostRuntime) -> Result<(), Fail> {
        let heap = rt.alloc();
        // line 2 < line 0
        let sheet = [
            1, 2, 1, 0, 0x10, 0, 0x17, 31, 20, 0, 0, 0, 20, 0, 0, 0, 0, 0, 4, 0,
        ];
        prints(
            &rt,
            heap,
            &[&ENTRIES, &sheet],
            "line 0 33 250\nline 1 -inf +inf\nline 2 -inf -100\nline 3 blank\nflag 31 certain\n",
        )
    }

    #[test]
    fn input_refused(rt: HostRuntime) -> Result<(), Fail> {
        let heap = rt.alloc();
        prints(&rt, heap, &[], "refused 13 program 0\n")?;
        prints(&rt, heap, &[&[33]], "refused 13 program 0\n")?;
        prints(&rt, heap, &[&ENTRIES[0..72]], "refused 13 program 3\n")?;
        prints(
            &rt,
            heap,
            &[&[1, 0, 5], &ENTRIES[3..19]],
            "refused 13 program 0\n",
        )?;
        prints(
            &rt,
            heap,
            &[&[1, 32, 0], &ENTRIES[3..19]],
            "refused 9 pad 32\n",
        )?;
        prints(
            &rt,
            heap,
            &[&[1, 0, 1], &ENTRIES[21..37]],
            "refused 10 pad 1\n",
        )
    }

    #[test]
    fn sheet_refused(rt: HostRuntime) -> Result<(), Fail> {
        let heap = rt.alloc();
        prints(&rt, heap, &[&ENTRIES], "refused 1 filing 0\n")?;
        prints(
            &rt,
            heap,
            &[&ENTRIES, &LINE_9[3..14]],
            "refused 1 filing 11\n",
        )?;
        prints(&rt, heap, &[&ENTRIES, &LINE_9], "refused 8 clearing 1\n")?;
        prints(
            &rt,
            heap,
            &[&ENTRIES, &[24], &LINE_9[1..14]],
            "refused 5 clearing 0\n",
        )
    }

    #[test]
    fn work_refused(rt: HostRuntime) -> Result<(), Fail> {
        let heap = rt.alloc();
        // line 9, kept into line 0
        let sheet = [1, 9, 3, 0, 16, 0, 0, 0, 16, 0, 0, 0, 0, 0, 2, 0];
        prints(&rt, heap, &[&ENTRIES, &sheet], "refused 14 pad 9\n")
    }
}
