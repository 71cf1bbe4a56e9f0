// Tests of reading: tables of fields, lines and texts, and a count of the lines of a text.
#![tactic(auto)]

ghost use Rattle.std.specs.Prelude.{◌≡◌, length};
ghost use Rattle.reading.specs.Parts.{lines_of};

use reading::Lines;

// How many lines a text has.
fn count_lines(text: &[u8]) -> usize
    ensures { result ≡ length (lines_of text.now) }
{
    Lines::new(text).count()
}

#[cfg(test)]
mod tests {
    use super::*;
    use reading::{cut, first_line, number, three_numbers};
    use std::test::Fail;

    #[test]
    fn fields_with_a_number(rt: HostRuntime) {
        let table: [(&[u8], u64); 6] = [
            (b"0", 0),
            (b"9", 9),
            (b"1234567890", 1_234_567_890),
            (b"007", 7),
            (b"000000000000001", 1),
            (b"999999999999999", 999_999_999_999_999),
        ];
        for (field, value) in table.iter() {
            assert_eq!(rt; number(field), Some(*value));
        }
    }

    #[test]
    fn fields_with_none(rt: HostRuntime) {
        let table: [&[u8]; 14] = [
            b"",
            b"1000000000000000",
            b"0000000000000001",
            b"+1",
            b"-1",
            b" 1",
            b"1 ",
            b"1\r",
            b"1.5",
            b"0x1",
            &[49, 47],
            &[58, 49],
            &[49, 0, 49],
            &[255],
        ];
        for field in table.iter() {
            assert_eq!(rt; number(field), None);
        }
    }

    #[test]
    fn lines_with_three_numbers(rt: HostRuntime) {
        let table: [(&[u8], (u64, u64, u64)); 4] = [
            (b"1,2,3", (1, 2, 3)),
            (b"0,0,0", (0, 0, 0)),
            (b"010,0020,00300", (10, 20, 300)),
            (
                b"999999999999999,000000000000000,100000000000000",
                (999_999_999_999_999, 0, 100_000_000_000_000),
            ),
        ];
        for (line, three) in table.iter() {
            assert_eq!(rt; three_numbers(line), Some(*three));
        }
    }

    #[test]
    fn lines_with_none(rt: HostRuntime) {
        let table: [&[u8]; 16] = [
            b"",
            b"1",
            b"1,2",
            b",2,3",
            b"1,,3",
            b"1,2,",
            b"1,2,3,",
            b"1,2,3,4",
            b",,",
            b"1000000000000000,2,3",
            b"1,0000000000000002,3",
            b"+1,2,3",
            b" 1,2,3",
            b"1,2,3\r",
            b"1,2,3\n",
            &[49, 44, 58, 44, 51],
        ];
        for line in table.iter() {
            assert_eq!(rt; three_numbers(line), None);
        }
    }

    #[test]
    fn counts_of_lines(rt: HostRuntime) {
        let table: [(&[u8], usize); 10] = [
            (b"", 0),
            (b"\n", 1),
            (b"\n\n", 2),
            (b"O", 1),
            (b"O\n", 1),
            (b"O\n\n", 2),
            (b"\nO", 2),
            (b"O\nP", 2),
            (b"O\nP\n", 2),
            (b"O\n\nP\r\n", 3),
        ];
        for (text, count) in table.iter() {
            assert_eq!(rt; count_lines(text), *count);
        }
    }

    #[test]
    fn first_lines(rt: HostRuntime) -> Result<(), Fail> {
        assert!(rt; first_line(b"").is_none());
        let table: [(&[u8], &[u8], &[u8]); 6] = [
            (b"\n", b"", b""),
            (b"O", b"O", b""),
            (b"O\n", b"O", b""),
            (b"O\n\n", b"O", b"\n"),
            (b"\nO", b"", b"O"),
            (b"1,2\r\n3", b"1,2\r", b"3"),
        ];
        for (text, first, behind) in table.iter() {
            let (line, rest) = first_line(text).ok_or("no line")?;
            assert_eq!(rt; line, *first);
            assert_eq!(rt; rest, *behind);
        }
        Ok(())
    }

    #[test]
    fn lines_in_turn(rt: HostRuntime) -> Result<(), Fail> {
        let mut lines = Lines::new(b"1,2\r\n\n3");
        assert_eq!(rt; lines.next().ok_or("no line")?, b"1,2\r".as_slice());
        assert_eq!(rt; lines.next().ok_or("no line")?, b"".as_slice());
        assert_eq!(rt; lines.next().ok_or("no line")?, b"3".as_slice());
        assert!(rt; lines.next().is_none());
        Ok(())
    }

    #[test]
    fn cuts(rt: HostRuntime) -> Result<(), Fail> {
        let (part, rest) = cut(b"a,b,c", b',');
        assert_eq!(rt; part, b"a".as_slice());
        assert_eq!(rt; rest.ok_or("no rest")?, b"b,c".as_slice());
        let (part, rest) = cut(b",", b',');
        assert!(rt; part.is_empty());
        assert!(rt; rest.ok_or("no rest")?.is_empty());
        let (part, rest) = cut(b"abc", b',');
        assert_eq!(rt; part, b"abc".as_slice());
        assert!(rt; rest.is_none());
        Ok(())
    }
}
