//! Tests of wiring lists: faulty lines are named with their number and the reason.
#![tactic(auto)]

#[cfg(test)]
mod tests {
    use line_words::fault::WordFault;
    use std::alloc::Global;
    use std::process::Abort;
    use std::test::Fail;
    use wiring::fault::Fault;
    use wiring::list::read_list;

    // The list has exactly one fault: that one, in that line.
    fn faults_at(
        rt: &impl Abort,
        heap: Global,
        text: &str,
        line: usize,
        fault: Fault,
    ) -> Result<(), Fail> {
        let list = read_list(heap, text.as_bytes())?;
        assert!(rt; list.faults.len() == 1, "{}", text);
        let wrong = list.faults.first().copied().ok_or("no fault")?;
        assert_eq!(rt; wrong.line, line, "{}", text);
        assert_eq!(rt; wrong.fault, fault, "{}", text);
        Ok(())
    }

    #[test]
    fn a_line_that_is_no_call_is_named(rt: HostRuntime) -> Result<(), Fail> {
        for (text, line, fault) in [
            ("bord plain 1", 1usize, WordFault::Unknown),
            ("board plane 1", 1, WordFault::Unknown),
            ("board steady 2 steady 2 plain 1", 1, WordFault::Unknown),
            ("board plain 1\ndrive 0 open", 2, WordFault::Unknown),
            ("board", 1, WordFault::Missing),
            ("board plain # 1", 1, WordFault::Missing),
            ("board steady 2 loop", 1, WordFault::Missing),
            ("board plain 1\n\n# door 0\n tick", 4, WordFault::Missing),
            ("board plain 1 1", 1, WordFault::Extra),
            ("board plain 1\nask all\n", 2, WordFault::Extra),
            ("board plain 1\ntick 00 00\n", 2, WordFault::Extra),
            ("board plain one", 1, WordFault::NotANumber),
            ("board plain 1\ndrive held 0", 2, WordFault::NotANumber),
            ("board plain +1", 1, WordFault::NotANumber),
            ("board plain 18446744073709551616", 1, WordFault::TooLarge),
            ("board steady 256 plain 1", 1, WordFault::TooLarge),
            ("board plain 1\ntick 0g", 2, WordFault::NotHex),
            ("board plain 1\ntick 012", 2, WordFault::OddHex),
        ] {
            faults_at(&rt, rt.alloc(), text, line, Fault::Word(fault))?;
        }
        Ok(())
    }

    #[test]
    fn a_call_wants_a_board(rt: HostRuntime) -> Result<(), Fail> {
        for (text, line) in [
            ("", 1usize),
            ("# nothing\n\n", 3),
            ("ask\nboard plain 1", 1),
            ("\ntick -\nboard loop 1\nask\n", 2),
        ] {
            faults_at(&rt, rt.alloc(), text, line, Fault::NoBoard)?;
        }
        Ok(())
    }

    #[test]
    fn a_good_list_has_no_fault(rt: HostRuntime) -> Result<(), Fail> {
        for (text, steps) in [
            ("board plain 1", 1usize),
            (
                "board steady 255 loop 18446744073709551615\r\n\task # all\n",
                2,
            ),
            (
                "board plain 0\ndrive 007 released\ntick -\ntick aBcD\n\nboard loop 1",
                5,
            ),
        ] {
            let list = read_list(rt.alloc(), text.as_bytes())?;
            assert!(rt; list.faults.is_empty(), "{}", text);
            assert_eq!(rt; list.steps.len(), steps, "{}", text);
        }
        Ok(())
    }
}
