// Tests of reading lines: lines that are no call, and what counts as one.
#![tactic(auto)]

#[cfg(test)]
mod tests {
    use scripts::call::{Call, FieldName, Keyword};
    use scripts::line::{Expected, Line, read_line};
    use scripts::number::number;
    use scripts::words::{Mark, Pieces};
    use std::alloc::{AllocError, Global};
    use std::test::Fail;

    // What a line that is no call has not; none where it is a call or blank.
    fn missing(heap: Global, line: &[u8]) -> Result<Option<Expected>, AllocError> {
        match read_line(heap, line)? {
            Line::Wrong(expected) => Ok(Some(expected)),
            _ => Ok(None),
        }
    }

    // The same, of a line that begins with a keyword.
    fn unfit(heap: Global, line: &[u8]) -> Result<Option<Keyword>, AllocError> {
        match missing(heap, line)? {
            Some(Expected::Arguments(keyword)) => Ok(Some(keyword)),
            _ => Ok(None),
        }
    }

    fn is_blank(heap: Global, line: &[u8]) -> Result<bool, AllocError> {
        Ok(matches!(read_line(heap, line)?, Line::Blank))
    }

    fn is_frame(heap: Global, line: &[u8]) -> Result<bool, AllocError> {
        Ok(matches!(read_line(heap, line)?, Line::Call(Call::Frame)))
    }

    // The numbers of a put.
    fn put(heap: Global, line: &[u8]) -> Result<Option<(u32, u32, u32)>, AllocError> {
        match read_line(heap, line)? {
            Line::Call(Call::Put { i, power, code }) => Ok(Some((i, power, code))),
            _ => Ok(None),
        }
    }

    // The numbers of a message.
    fn encoded(heap: Global, line: &[u8]) -> Result<Vec<u32>, Fail> {
        match read_line(heap, line)? {
            Line::Call(Call::Encode { message }) => Ok(message),
            _ => Err(Fail::new("a message was expected")),
        }
    }

    // The bytes of a card.
    fn card(heap: Global, line: &[u8]) -> Result<Vec<u8>, Fail> {
        match read_line(heap, line)? {
            Line::Call(Call::Read { bytes }) => Ok(bytes),
            _ => Err(Fail::new("a card was expected")),
        }
    }

    fn field(heap: Global, line: &[u8]) -> Result<Option<FieldName>, AllocError> {
        match read_line(heap, line)? {
            Line::Call(Call::Field(name)) => Ok(Some(name)),
            _ => Ok(None),
        }
    }

    #[test]
    fn numbers(rt: HostRuntime) {
        assert_eq!(rt; number(b"0"), Some(0));
        assert_eq!(rt; number(b"007"), Some(7));
        assert_eq!(rt; number(b"4294967295"), Some(4294967295));
        assert_eq!(rt; number(b"4294967296"), Some(4294967295));
        assert_eq!(rt; number(b"99999999999999999999999999"), Some(4294967295));
        assert_eq!(rt; number(b""), None);
        assert_eq!(rt; number(b"-1"), None);
        assert_eq!(rt; number(b"1x"), None);
        assert_eq!(rt; number(b"x1"), None);
    }

    // One after the other, told apart by their lengths.
    #[test]
    fn pieces_of_a_text(rt: HostRuntime) {
        let mut pieces = Pieces::of(b"1,23,", Mark::Comma);
        assert_eq!(rt; pieces.next().map(|piece| piece.len()), Some(1));
        assert_eq!(rt; pieces.next().map(|piece| piece.len()), Some(2));
        assert_eq!(rt; pieces.next().map(|piece| piece.len()), Some(0));
        assert!(rt; pieces.next().is_none());
    }

    #[test]
    fn blank_lines(rt: HostRuntime) -> Result<(), Fail> {
        let heap = rt.alloc();
        assert!(rt; is_blank(heap, b"")?);
        assert!(rt; is_blank(heap, b" \t \r")?);
        assert!(rt; is_blank(heap, b"# begin 2")?);
        assert!(rt; is_blank(heap, b"   #")?);
        assert!(rt; !is_blank(heap, b"frame # begin 2")?);
        Ok(())
    }

    #[test]
    fn no_keyword(rt: HostRuntime) -> Result<(), Fail> {
        let heap = rt.alloc();
        assert_eq!(rt; missing(heap, b"jump 3")?, Some(Expected::Call));
        assert_eq!(rt; missing(heap, b"Frame")?, Some(Expected::Call));
        assert_eq!(rt; missing(heap, b"3 begin")?, Some(Expected::Call));
        assert_eq!(rt; missing(heap, b"begins 3")?, Some(Expected::Call));
        assert_eq!(rt; missing(heap, b"|frame")?, Some(Expected::Call));
        assert_eq!(rt; missing(heap, b"\xff")?, Some(Expected::Call));
        Ok(())
    }

    #[test]
    fn arguments(rt: HostRuntime) -> Result<(), Fail> {
        let heap = rt.alloc();
        assert_eq!(rt; unfit(heap, b"begin")?, Some(Keyword::Begin));
        assert_eq!(rt; unfit(heap, b"begin 2 3")?, Some(Keyword::Begin));
        assert_eq!(rt; unfit(heap, b"put 1 2")?, Some(Keyword::Put));
        assert_eq!(rt; unfit(heap, b"put 1 2 3 4")?, Some(Keyword::Put));
        assert_eq!(rt; unfit(heap, b"put 1 2 x")?, Some(Keyword::Put));
        assert_eq!(rt; unfit(heap, b"column 1")?, Some(Keyword::Column));
        assert_eq!(rt; unfit(heap, b"frame now")?, Some(Keyword::Frame));
        assert_eq!(rt; unfit(heap, b"reopen 1")?, Some(Keyword::Reopen));
        assert_eq!(rt; unfit(heap, b"encode 1 |")?, Some(Keyword::Encode));
        assert_eq!(rt; unfit(heap, b"check 1 -2")?, Some(Keyword::Check));
        assert_eq!(rt; unfit(heap, b"invert")?, Some(Keyword::Invert));
        assert_eq!(rt; unfit(heap, b"invert x 1")?, Some(Keyword::Invert));
        assert_eq!(rt; unfit(heap, b"card 0")?, Some(Keyword::Card));
        assert_eq!(rt; unfit(heap, b"read 1 2,3")?, Some(Keyword::Read));
        assert_eq!(rt; unfit(heap, b"read 255 256")?, Some(Keyword::Read));
        assert_eq!(rt; unfit(heap, b"read 4294967552")?, Some(Keyword::Read));
        assert_eq!(rt; unfit(heap, b"show all")?, Some(Keyword::Show));
        assert_eq!(rt; unfit(heap, b"field moons")?, Some(Keyword::Field));
        assert_eq!(rt; unfit(heap, b"field tones bytes")?, Some(Keyword::Field));
        Ok(())
    }

    // How many columns an offer has.
    fn offered(heap: Global, line: &[u8]) -> Result<Option<usize>, AllocError> {
        match read_line(heap, line)? {
            Line::Call(Call::Offer { columns }) => Ok(Some(columns.len())),
            _ => Ok(None),
        }
    }

    #[test]
    fn offers(rt: HostRuntime) -> Result<(), Fail> {
        let heap = rt.alloc();
        assert_eq!(rt; offered(heap, b"offer 1 1,30 | 30,30 0,0,1")?, Some(2));
        assert_eq!(rt; offered(heap, b"offer 0")?, Some(1));
        assert_eq!(rt; offered(heap, b"offer 1 1,30|30,30 0,0,1|0")?, Some(3));
        assert_eq!(rt; offered(heap, b"offer 1| 2 |3")?, Some(3));
        assert_eq!(rt; unfit(heap, b"offer")?, Some(Keyword::Offer));
        assert_eq!(rt; unfit(heap, b"offer 1 | | 2")?, Some(Keyword::Offer));
        assert_eq!(rt; unfit(heap, b"offer | 1")?, Some(Keyword::Offer));
        assert_eq!(rt; unfit(heap, b"offer 1 |")?, Some(Keyword::Offer));
        assert_eq!(rt; unfit(heap, b"offer 1||2")?, Some(Keyword::Offer));
        assert_eq!(rt; unfit(heap, b"offer|1")?, Some(Keyword::Offer));
        assert_eq!(rt; unfit(heap, b"offer 1,,2")?, Some(Keyword::Offer));
        assert_eq!(rt; unfit(heap, b"offer ,")?, Some(Keyword::Offer));
        assert_eq!(rt; unfit(heap, b"offer 1,x")?, Some(Keyword::Offer));
        Ok(())
    }

    #[test]
    fn calls(rt: HostRuntime) -> Result<(), Fail> {
        let heap = rt.alloc();
        assert_eq!(rt; put(heap, b"\tput  1 2 3 # a comment")?, Some((1, 2, 3)));
        assert_eq!(rt;
            put(heap, b"put 1 2 99999999999")?,
            Some((1, 2, 4294967295))
        );
        assert_eq!(rt;
            field(heap, b"field tone-pairs\r")?,
            Some(FieldName::TonePairs)
        );
        assert_eq!(rt; field(heap, b"field bytes")?, Some(FieldName::Bytes));
        assert!(rt; is_frame(heap, b"frame")?);
        assert!(rt; !is_frame(heap, b"reopen")?);
        assert!(rt; encoded(heap, b"encode")?.is_empty());
        assert!(rt; encoded(heap, b"encode 3 1")?.len() == 2);
        assert!(rt; card(heap, b"read")?.is_empty());
        assert_eq!(rt;
            card(heap, b"read 0 255 7")?.as_slice(),
            [0, 255, 7].as_slice()
        );
        Ok(())
    }
}
