//! Tests of the text layer: lines, words, numbers and hex bytes.
#![tactic(auto)]

#[cfg(test)]
mod tests {
    use numeral::decimal::{NumberFault, decimal};
    use numeral::hex::{HexFault, hex_bytes, hex_digit, hex_text};
    use std::alloc::{AllocError, Global};
    use std::test::Fail;
    use text::lines::Lines;
    use text::words::Words;

    // The lines of `text`, with a bar after each.
    fn barred_lines(heap: Global, text: &[u8]) -> Result<Vec<u8>, AllocError> {
        let mut out = Vec::new(heap);
        for line in Lines::of(text) {
            out.extend_from_slice(line)?;
            out.push(b'|')?;
        }
        Ok(out)
    }

    // The words of `line`, with a bar after each.
    fn barred_words(heap: Global, line: &[u8]) -> Result<Vec<u8>, AllocError> {
        let mut out = Vec::new(heap);
        for word in Words::of(line) {
            out.extend_from_slice(word)?;
            out.push(b'|')?;
        }
        Ok(out)
    }

    #[test]
    fn lines_end_at_newlines(rt: HostRuntime) -> Result<(), Fail> {
        let table = [
            ("", ""),
            ("\n", "|"),
            ("a", "a|"),
            ("a\n", "a|"),
            ("a\nb", "a|b|"),
            ("\n\nab\r\n\n", "||ab\r||"),
        ];
        for (text, want) in table {
            let got = barred_lines(rt.alloc(), text.as_bytes())?;
            assert!(rt; got.as_slice() == want.as_bytes(), "{}", text);
        }
        Ok(())
    }

    #[test]
    fn words_stand_between_blanks(rt: HostRuntime) -> Result<(), Fail> {
        let table = [
            ("", ""),
            (" \t\r ", ""),
            ("one", "one|"),
            (" one\ttwo  three\r", "one|two|three|"),
            ("ab#c d", "ab|"),
            ("a # b # c", "a|"),
            ("#", ""),
        ];
        for (line, want) in table {
            let got = barred_words(rt.alloc(), line.as_bytes())?;
            assert!(rt; got.as_slice() == want.as_bytes(), "{}", line);
        }
        Ok(())
    }

    #[test]
    fn numbers_are_read(rt: HostRuntime) {
        let table = [
            ("0", 0),
            ("007", 7),
            ("000000000000000000000000000042", 42),
            ("18446744073709551615", u64::MAX),
        ];
        for (word, want) in table {
            assert!(rt; decimal(word.as_bytes()) == Ok(want), "{}", word);
        }
        for word in [
            "",
            "+1",
            "-1",
            "1 ",
            "12a",
            "/",
            ":",
            "99999999999999999999x",
        ] {
            assert!(rt;
                decimal(word.as_bytes()) == Err(NumberFault::NotDigits),
                "{}",
                word
            );
        }
        for word in ["18446744073709551616", "99999999999999999999"] {
            assert!(rt;
                decimal(word.as_bytes()) == Err(NumberFault::TooLarge),
                "{}",
                word
            );
        }
    }

    #[test]
    fn hex_digits_have_edges(rt: HostRuntime) {
        let table = [
            (b'0', 0),
            (b'9', 9),
            (b'A', 10),
            (b'F', 15),
            (b'a', 10),
            (b'f', 15),
        ];
        for (digit, want) in table {
            assert!(rt; hex_digit(digit) == Some(want));
        }
        for other in [b'/', b':', b'@', b'G', b'`', b'g', b'-'] {
            assert!(rt; hex_digit(other) == None);
        }
    }

    #[test]
    fn hex_words_give_bytes(rt: HostRuntime) -> Result<(), Fail> {
        for (word, want) in [
            ("", ""),
            ("-", ""),
            ("00", "00"),
            ("0aFf", "0aff"),
            ("DEad90", "dead90"),
        ] {
            let bytes = hex_bytes(rt.alloc(), word.as_bytes())?;
            let again = hex_text(rt.alloc(), bytes.as_slice())?;
            assert!(rt; again.as_str() == want, "{}", word);
        }
        Ok(())
    }

    #[test]
    fn hex_faults_are_told(rt: HostRuntime) -> Result<(), Fail> {
        for (word, want) in [
            ("a", HexFault::OddDigits),
            ("abc", HexFault::OddDigits),
            ("--", HexFault::NotHex),
            ("0g", HexFault::NotHex),
            ("x", HexFault::NotHex),
        ] {
            let outcome = hex_bytes(rt.alloc(), word.as_bytes());
            assert!(rt; outcome.err() == Some(want), "{}", word);
        }
        Ok(())
    }
}
