#![tactic(auto)]
// Tries scripts against their outcome: every decided point, and every limit at its edge and one past it.
#[cfg(test)]
mod table;
#[cfg(test)]
mod unfit;

#[cfg(test)]
mod tests {
    use crate::table::{LAWFUL, NO_TOKEN, Trial};
    use crate::unfit::{UNFIT_FIRST, UNFIT_LATER};
    use scan::types::{ReaderFault, Spot};
    use script::forms::read;
    use std::alloc::{AllocError, Global};
    use std::process::Abort;
    use std::test::Fail;

    // What is displayed of a script's outcome.
    fn displayed(heap: Global, script: &[u8]) -> Result<String, Fail> {
        let mut text = String::new(heap);
        match read(heap, script) {
            Err(fault) => write!(text, "{fault}")?,
            Ok(steps) => {
                for step in &steps {
                    writeln!(text, "{step}")?;
                }
            }
        }
        Ok(text)
    }

    fn tried(rt: &impl Abort, heap: Global, trials: &[Trial]) -> Result<(), Fail> {
        for trial in trials {
            let text = displayed(heap, trial.script)?;
            assert_eq!(rt; text.as_str(), trial.outcome);
        }
        Ok(())
    }

    // How many steps a script has.
    fn counted(heap: Global, script: &[u8]) -> Result<usize, ReaderFault> {
        let steps = read(heap, script)?;
        Ok(steps.len())
    }

    #[test]
    fn lawful(rt: HostRuntime) -> Result<(), Fail> {
        tried(&rt, rt.alloc(), &LAWFUL)
    }

    #[test]
    fn no_token(rt: HostRuntime) -> Result<(), Fail> {
        tried(&rt, rt.alloc(), &NO_TOKEN)
    }

    #[test]
    fn unfit_first(rt: HostRuntime) -> Result<(), Fail> {
        tried(&rt, rt.alloc(), &UNFIT_FIRST)
    }

    #[test]
    fn unfit_later(rt: HostRuntime) -> Result<(), Fail> {
        tried(&rt, rt.alloc(), &UNFIT_LATER)
    }

    // 4,096 steps with the opening, and one more.
    #[test]
    fn most_steps(rt: HostRuntime) -> Result<(), Fail> {
        let heap = rt.alloc();
        let full = b"(open byte8 24 2)\n(times 819 (null 1) (null 1) (null 1) (null 1) (null 1))\n";
        assert_eq!(rt; counted(heap, full), Ok(4096));
        let mut over = Vec::from_slice(heap, full)?;
        over.extend_from_slice(b"(null 1)")?;
        assert_eq!(rt; counted(heap, over.as_slice()), Err(ReaderFault::TooLong));
        let turns =
            b"(open byte8 24 2)\n(times 1000 (null 1) (null 1) (null 1) (null 1))\n(times 95 (null 1))\n";
        assert_eq!(rt; counted(heap, turns), Ok(4096));
        let more =
            b"(open byte8 24 2)\n(times 1000 (null 1) (null 1) (null 1) (null 1))\n(times 96 (null 1))\n";
        assert_eq!(rt; counted(heap, more), Err(ReaderFault::TooLong));
        Ok(())
    }

    // 16,384 bytes, and one more, which comes before all.
    #[test]
    fn most_bytes(rt: HostRuntime) -> Result<(), Fail> {
        let heap = rt.alloc();
        let mut script = Vec::from_slice(heap, b"#")?;
        script.resize(16384, b' ')?;
        assert_eq!(rt;
            counted(heap, script.as_slice()),
            Err(ReaderFault::NoToken(Spot { line: 1, column: 1 }))
        );
        script.push(b' ')?;
        assert_eq!(rt; counted(heap, script.as_slice()), Err(ReaderFault::TooLong));
        Ok(())
    }

    // 16 brackets, and one more.
    #[test]
    fn most_brackets(rt: HostRuntime) -> Result<(), Fail> {
        let heap = rt.alloc();
        let mut deep = Vec::from_slice(heap, b"(open byte8 24 2)\n")?;
        for _ in 0..15 {
            deep.extend_from_slice(b"(times 1 ")?;
        }
        let mut deeper = Vec::from_slice(heap, deep.as_slice())?;
        deep.extend_from_slice(b"(null 1)")?;
        for _ in 0..15 {
            deep.extend_from_slice(b")")?;
        }
        assert_eq!(rt; counted(heap, deep.as_slice()), Ok(2));
        deeper.extend_from_slice(b"(times 1 (#")?;
        assert_eq!(rt;
            counted(heap, deeper.as_slice()),
            Err(ReaderFault::Unfit(Spot {
                line: 2,
                column: 145,
            }))
        );
        Ok(())
    }
}
