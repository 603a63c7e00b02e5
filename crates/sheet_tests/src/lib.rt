#![tactic(auto)]

#[cfg(test)]
mod tests {
    use commands::number::numbers;
    use hex_digits::decode;
    use layout::sheet::Sheet;
    use sheet_text::filling::fill;
    use std::test::Fail;

    const OPENING: &[u8] =
        b"new change topcut bottomcut\n0 1 2 3\n\ntemplate kind field offset width\n";

    // The line at which a text is refused, 0 where it is accepted.
    fn refused(rt: &HostRuntime, text: &[u8]) -> Result<usize, Fail> {
        let mut sheet = Sheet::blank(rt.alloc())?;
        match fill(&mut sheet, text) {
            Ok(()) => Ok(0),
            Err(e) => Ok(e.line),
        }
    }

    // The line at which an opening with these lines behind it is refused, 0 where they are accepted.
    fn behind_opening(rt: &HostRuntime, lines: &[u8]) -> Result<usize, Fail> {
        let mut text = Vec::from_slice(rt.alloc(), OPENING)?;
        text.extend_from_slice(lines)?;
        refused(rt, text.as_slice())
    }

    #[test]
    fn accepts(rt: HostRuntime) -> Result<(), Fail> {
        assert_eq!(rt; behind_opening(&rt, b"")?, 0);
        assert_eq!(rt; behind_opening(&rt, b"7 empty security 0 8\n")?, 0);
        assert_eq!(rt;
            behind_opening(
                &rt,
                b"7 delete position 9 4\n7 delete security 0 8\n7 delete side 8 1\n",
            )?,
            0
        );
        assert_eq!(rt;
            behind_opening(
                &rt,
                b"7 empty security 0 8\n8 stat value 8 8\n8 stat security 0 8\n",
            )?,
            0
        );
        Ok(())
    }

    #[test]
    fn refuses_bad_lines(rt: HostRuntime) -> Result<(), Fail> {
        assert_eq!(rt; behind_opening(&rt, b"7 empty security 0 8")?, 5);
        assert_eq!(rt; behind_opening(&rt, b"\n")?, 5);
        assert_eq!(rt; behind_opening(&rt, b"7  empty security 0 8\n")?, 5);
        assert_eq!(rt; behind_opening(&rt, b"7 empty security 0 8\r\n")?, 5);
        assert_eq!(rt; behind_opening(&rt, b"07 empty security 0 8\n")?, 5);
        assert_eq!(rt; behind_opening(&rt, b"65536 empty security 0 8\n")?, 5);
        assert_eq!(rt; behind_opening(&rt, b"7 blank security 0 8\n")?, 5);
        assert_eq!(rt; behind_opening(&rt, b"7 empty value 0 8\n")?, 5);
        assert_eq!(rt; behind_opening(&rt, b"7 empty security 1365 8\n")?, 5);
        assert_eq!(rt; behind_opening(&rt, b"7 empty security 0 3\n")?, 5);
        Ok(())
    }

    #[test]
    fn refuses_widths(rt: HostRuntime) -> Result<(), Fail> {
        assert_eq!(rt;
            behind_opening(&rt, b"7 stat security 0 8\n7 stat value 8 8 \n")?,
            6
        );
        assert_eq!(rt; behind_opening(&rt, b"7 delete side 8 2\n")?, 5);
        assert_eq!(rt; behind_opening(&rt, b"7 delete position 8 8\n")?, 5);
        assert_eq!(rt; behind_opening(&rt, b"7 entries group 1 1\n")?, 5);
        assert_eq!(rt; behind_opening(&rt, b"7 entries group 0 4\n")?, 5);
        assert_eq!(rt; behind_opening(&rt, b"7 order price 0 4\n")?, 5);
        Ok(())
    }

    #[test]
    fn refuses_what_may_not_follow(rt: HostRuntime) -> Result<(), Fail> {
        assert_eq!(rt; behind_opening(&rt, b"7 stat security 0 8\n")?, 6);
        assert_eq!(rt;
            behind_opening(&rt, b"7 stat security 0 8\n7 stat security 8 8\n")?,
            6
        );
        assert_eq!(rt;
            behind_opening(&rt, b"7 stat security 0 8\n7 delete side 8 1\n")?,
            6
        );
        assert_eq!(rt;
            behind_opening(&rt, b"7 stat security 0 8\n8 empty security 0 8\n")?,
            6
        );
        assert_eq!(rt;
            behind_opening(
                &rt,
                b"7 empty security 0 8\n8 empty security 0 8\n7 empty security 0 8\n",
            )?,
            7
        );
        assert_eq!(rt; behind_opening(&rt, b"7 empty security 0 8\n\n")?, 6);
        Ok(())
    }

    #[test]
    fn refuses_openings(rt: HostRuntime) -> Result<(), Fail> {
        assert_eq!(rt; refused(&rt, b"")?, 1);
        assert_eq!(rt; refused(&rt, b"new change topcut bottomcut")?, 1);
        assert_eq!(rt; refused(&rt, b"new change topcut bottomcut\n")?, 2);
        assert_eq!(rt; refused(&rt, b"new change topcut bottomcut\n0 1 2 2\n")?, 2);
        assert_eq!(rt;
            refused(&rt, b"new change topcut bottomcut\n0 1 2 256\n")?,
            2
        );
        assert_eq!(rt;
            refused(&rt, b"new change topcut bottomcut\n0 1 2 3\n \n")?,
            3
        );
        assert_eq!(rt;
            refused(&rt, b"new change topcut bottomcut\n0 1 2 3\n\ntemplate\n")?,
            4
        );
        Ok(())
    }

    #[test]
    fn fills_fifteen_templates(rt: HostRuntime) -> Result<(), Fail> {
        let mut text = Vec::from_slice(rt.alloc(), OPENING)?;
        text.extend_from_slice(
            b"50 order security 0 8\n50 order action 8 1\n50 order side 9 1\n50 order position 10 4\n50 order price 14 8\n50 order size 22 8\n",
        )?;
        text.extend_from_slice(
            b"50 order oid 30 8\n50 order firm 38 4\n51 delete security 0 8\n51 delete side 8 1\n51 delete position 9 4\n52 mass security 0 8\n",
        )?;
        text.extend_from_slice(
            b"52 mass action 8 1\n52 mass side 9 1\n52 mass position 10 4\n9 empty security 0 8\n15 stat security 0 8\n15 stat value 8 8\n",
        )?;
        text.extend_from_slice(
            b"16 stat security 0 8\n16 stat value 8 8\n17 stat security 0 8\n17 stat value 8 8\n18 stat security 0 8\n18 stat value 8 8\n",
        )?;
        text.extend_from_slice(
            b"19 stat security 0 8\n19 stat value 8 8\n20 stat security 0 8\n20 stat value 8 8\n21 stat security 0 8\n21 stat value 8 8\n",
        )?;
        text.extend_from_slice(
            b"22 stat security 0 8\n22 stat value 8 8\n23 stat security 0 8\n23 stat value 8 8\n30 header security 0 8\n30 header last 8 4\n",
        )?;
        text.extend_from_slice(
            b"30 header bids 12 4\n30 header offers 16 4\n30 header stats 20 2\n71 entries security 0 8\n71 entries group 0 1\n71 entries side 0 1\n",
        )?;
        text.extend_from_slice(
            b"71 entries position 1 4\n71 entries price 5 8\n71 entries size 13 8\n71 entries oid 21 8\n71 entries firm 29 4\n",
        )?;
        let mut sheet = Sheet::blank(rt.alloc())?;
        fill(&mut sheet, text.as_slice())?;
        assert_eq!(rt; sheet.templates.len(), 15);
        assert!(rt; sheet.template(71).is_some());
        assert!(rt; sheet.template(72).is_none());
        Ok(())
    }

    #[test]
    fn a_copy_says_what_the_sheet_says(rt: HostRuntime) -> Result<(), Fail> {
        let mut sheet = Sheet::blank(rt.alloc())?;
        assert!(rt;
            fill(
                &mut sheet,
                b"new change topcut bottomcut\n0 1 2 3\n\ntemplate kind field offset width\n7 empty security 0 8\n263 empty security 4 8\n"
            )
            .is_ok()
        );
        let copy = sheet.clone()?;
        assert_eq!(rt; copy.templates.len(), 2);
        assert_eq!(rt; copy.actions.bottomcut, 3);
        assert!(rt; copy.template(7).is_some());
        assert!(rt; copy.template(263).is_some());
        assert!(rt; copy.template(519).is_none());
        Ok(())
    }

    #[test]
    fn numbers_of_a_list(rt: HostRuntime) -> Result<(), Fail> {
        let found = numbers(rt.alloc(), b"5,0,18446744073709551615", b',')?;
        assert_eq!(rt; found.as_ref().map(|n| n.len()), Some(3));
        assert_eq!(rt;
            found.as_ref().and_then(|n| n.last().copied()),
            Some(u64::MAX)
        );
        assert!(rt; numbers(rt.alloc(), b"5,", b',')?.is_none());
        assert!(rt; numbers(rt.alloc(), b"", b',')?.is_none());
        Ok(())
    }

    #[test]
    fn words_of_digits(rt: HostRuntime) -> Result<(), Fail> {
        let mut room = Vec::new(rt.alloc());
        assert_eq!(rt; decode(b"00ff10", &mut room)?, Some(3));
        assert_eq!(rt; room.as_slice(), b"\x00\xff\x10".as_slice());
        assert_eq!(rt; decode(b"-", &mut room)?, Some(0));
        assert_eq!(rt; decode(b"0f1", &mut room)?, None);
        assert_eq!(rt; decode(b"0F", &mut room)?, None);
        Ok(())
    }
}
