//! Trials of the merge on inputs that were worked out from the rules.
#![tactic(auto)]

#[cfg(test)]
mod cases;
#[cfg(test)]
mod logs;
#[cfg(test)]
mod states;

use hex::FromHexError;
use merger::merged;
use std::alloc::{AllocError, Global};

/// An input in hexadecimal digits, and what is printed of it.
#[derive(Clone, Copy)]
pub(crate) struct Case {
    pub(crate) name: &'static str,
    pub(crate) input: &'static str,
    pub(crate) prints: &'static str,
}

impl Case {
    /// What the program prints of the input.
    fn printed(&self, heap: Global) -> Result<String, FromHexError> {
        let input = bytes_of(heap, self.input)?;
        Ok(printed(heap, &input)?)
    }
}

/// What the program prints of an input: the table, or the line of a fault.
fn printed(heap: Global, input: &[u8]) -> Result<String, AllocError> {
    merged(heap, input).or_else(|fault| fault.line(heap))
}

/// The bytes that a text of digits stands for. Blanks and bars between the digits stand for nothing.
fn bytes_of(heap: Global, text: &str) -> Result<Vec<u8>, FromHexError> {
    let digits: String = text
        .chars()
        .filter(|c| !matches!(c, ' ' | '|'))
        .collect(heap)?;
    hex::decode(heap, digits)
}

#[cfg(test)]
mod tests {
    use super::*;
    use crate::cases::*;
    use std::process::Abort;
    use std::test::Fail;

    fn all_pass(rt: &(impl Abort + AllocGlobal), cases: &[Case]) -> Result<(), Fail> {
        for case in cases {
            assert!(rt;
                case.printed(rt.alloc())?.as_str() == case.prints,
                "{}",
                case.name
            );
        }
        Ok(())
    }

    #[test]
    fn heads(rt: HostRuntime) -> Result<(), Fail> {
        all_pass(&rt, HEADS)
    }

    #[test]
    fn extents(rt: HostRuntime) -> Result<(), Fail> {
        all_pass(&rt, EXTENTS)
    }

    #[test]
    fn numbering(rt: HostRuntime) -> Result<(), Fail> {
        all_pass(&rt, NUMBERING)
    }

    #[test]
    fn pairs(rt: HostRuntime) -> Result<(), Fail> {
        all_pass(&rt, PAIRS)
    }

    #[test]
    fn references(rt: HostRuntime) -> Result<(), Fail> {
        all_pass(&rt, REFERENCES)
    }

    #[test]
    fn elements(rt: HostRuntime) -> Result<(), Fail> {
        all_pass(&rt, ELEMENTS)
    }

    #[test]
    fn taking_in(rt: HostRuntime) -> Result<(), Fail> {
        all_pass(&rt, TAKING_IN)
    }

    #[test]
    fn documents(rt: HostRuntime) -> Result<(), Fail> {
        all_pass(&rt, DOCUMENTS)
    }
}
