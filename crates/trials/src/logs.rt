//! Logs too long to be written out, built record by record.
use crate::printed;
use edits::{Id, Pair};
use std::alloc::{AllocError, Global};

/// A log of characters under construction.
#[derive(Drop)]
struct Log {
    bytes: Vec<u8>,
}

impl Log {
    /// A log in format 7 without records.
    fn new(heap: Global) -> Result<Log, AllocError> {
        let mut bytes = Vec::new(heap);
        bytes.extend_from_slice(b"L7\x01")?;
        Ok(Log { bytes })
    }

    fn number(&mut self, n: u16) -> Result<(), AllocError> {
        self.bytes.extend_from_slice(&n.to_be_bytes())
    }

    fn id(&mut self, id: Id) -> Result<(), AllocError> {
        self.bytes.push(id.editor)?;
        self.number(id.number)
    }

    /// The head of a record: its mark, the identifier and a clock of at most one pair.
    fn head(&mut self, mark: &[u8], id: Id, known: Option<Pair>) -> Result<(), AllocError> {
        self.bytes.extend_from_slice(mark)?;
        self.id(id)?;
        match known {
            Some(pair) => {
                self.bytes.extend_from_slice(&[1, pair.editor])?;
                self.number(pair.count)
            }
            None => Ok(self.bytes.push(0)?),
        }
    }

    /// An insertion of `a` on the right.
    fn insertion(&mut self, id: Id, known: Option<Pair>, parent: Id) -> Result<(), AllocError> {
        self.head(b"IN", id, known)?;
        self.id(parent)?;
        self.bytes.extend_from_slice(&[1, 0, 0, 0, b'a'])
    }

    fn deletion(&mut self, id: Id, known: Option<Pair>, target: Id) -> Result<(), AllocError> {
        self.head(b"DE", id, known)?;
        self.id(target)
    }

    /// A run of as many `a`, on the right.
    fn run(&mut self, id: Id, known: Option<Pair>, parent: Id, len: u8) -> Result<(), AllocError> {
        self.head(b"RU", id, known)?;
        self.id(parent)?;
        self.bytes.extend_from_slice(&[1, len])?;
        // The same bytes so many times: there is nothing to go over.
        for _ in 0..len {
            self.bytes.extend_from_slice(&[0, 0, 0, b'a'])?;
        }
        Ok(())
    }

    /// The first edits of editor 1, `runs` times 64 of them: each the right child of the one before it.
    fn chain(&mut self, runs: u8) -> Result<(), AllocError> {
        // Runs are numbered, and their numbers are what is written.
        for i in 0..runs {
            let before = u16::from(i) * 64;
            let first = one(before + 1);
            if before == 0 {
                self.run(first, None, START, 64)?;
            } else {
                self.run(first, Some(counted(before)), one(before), 64)?;
            }
        }
        Ok(())
    }

    /// What the program prints of the log.
    fn printed(&self, heap: Global) -> Result<String, AllocError> {
        printed(heap, &self.bytes)
    }
}

/// The start of the document, as a record writes it.
const START: Id = Id {
    editor: 0,
    number: 0,
};

/// An edit of editor 1.
fn one(number: u16) -> Id {
    Id { editor: 1, number }
}

/// The first edit of an editor.
fn first_of(editor: u8) -> Id {
    Id { editor, number: 1 }
}

/// As many edits of editor 1 are known.
fn counted(count: u16) -> Pair {
    Pair { editor: 1, count }
}

#[cfg(test)]
mod tests {
    use super::*;
    use std::process::Abort;
    use std::test::Fail;

    fn prints(rt: &(impl Abort + AllocGlobal), log: &Log, line: &str) -> Result<(), Fail> {
        let text = log.printed(rt.alloc())?;
        assert!(rt; text.as_str() == line);
        Ok(())
    }

    // Beside `prints`: a table of a thousand lines is not written out.
    fn begins(rt: &(impl Abort + AllocGlobal), log: &Log, line: &str) -> Result<(), Fail> {
        let text = log.printed(rt.alloc())?;
        assert!(rt; text.starts_with(line));
        Ok(())
    }

    // 16 runs of 64 fill the 1,024 slots.
    fn full(heap: Global) -> Result<Log, Fail> {
        let mut log = Log::new(heap)?;
        log.chain(16)?;
        Ok(log)
    }

    #[test]
    fn slots_exactly_full(rt: HostRuntime) -> Result<(), Fail> {
        let log = full(rt.alloc())?;
        begins(
            &rt,
            &log,
            "shown 1024 tombstones 0\n1.1 00000061\n1.2 00000061\n",
        )
    }

    #[test]
    fn no_slot_for_one_more(rt: HostRuntime) -> Result<(), Fail> {
        let mut log = full(rt.alloc())?;
        log.insertion(first_of(2), None, START)?;
        prints(&rt, &log, "fault 9 replica 2.1\n")
    }

    #[test]
    fn no_slot_for_one_that_would_wait(rt: HostRuntime) -> Result<(), Fail> {
        let mut log = full(rt.alloc())?;
        log.insertion(first_of(2), Some(counted(1025)), one(1025))?;
        prints(&rt, &log, "fault 9 replica 2.1\n")
    }

    #[test]
    fn full_slots_take_a_deletion(rt: HostRuntime) -> Result<(), Fail> {
        let mut log = full(rt.alloc())?;
        log.deletion(first_of(2), Some(counted(1024)), one(1))?;
        begins(&rt, &log, "shown 1023 tombstones 1\n1.2 00000061\n")
    }

    #[test]
    fn a_tombstone_frees_no_slot(rt: HostRuntime) -> Result<(), Fail> {
        let mut log = full(rt.alloc())?;
        log.deletion(one(1025), Some(counted(1024)), one(1024))?;
        log.insertion(one(1026), Some(counted(1025)), one(1023))?;
        prints(&rt, &log, "fault 9 replica 1.1026\n")
    }

    // 1,023 entries and one that waits leave no slot.
    #[test]
    fn a_waiting_insertion_has_its_slot(rt: HostRuntime) -> Result<(), Fail> {
        let mut log = Log::new(rt.alloc())?;
        log.chain(15)?;
        log.run(one(961), Some(counted(960)), one(960), 63)?;
        log.insertion(first_of(2), Some(counted(2000)), START)?;
        log.insertion(first_of(3), None, START)?;
        prints(&rt, &log, "fault 9 replica 3.1\n")
    }

    // Editors 1 to 16 fill the roster; what is known stays known.
    fn sixteen(heap: Global) -> Result<Log, Fail> {
        let mut log = Log::new(heap)?;
        for editor in 1..=16 {
            log.insertion(first_of(editor), None, START)?;
        }
        log.insertion(first_of(3), None, START)?;
        Ok(log)
    }

    #[test]
    fn sixteen_editors(rt: HostRuntime) -> Result<(), Fail> {
        let log = sixteen(rt.alloc())?;
        begins(
            &rt,
            &log,
            "shown 16 tombstones 0\n1.1 00000061\n2.1 00000061\n",
        )
    }

    #[test]
    fn a_seventeenth_editor(rt: HostRuntime) -> Result<(), Fail> {
        let mut log = sixteen(rt.alloc())?;
        log.insertion(first_of(17), None, START)?;
        prints(&rt, &log, "fault 8 replica 17.1\n")
    }

    // The edits 1.2 to 1.65 wait for 1.1 and fill the shelf.
    fn waiting(heap: Global) -> Result<Log, Fail> {
        let mut log = Log::new(heap)?;
        log.run(one(2), Some(counted(1)), one(1), 64)?;
        Ok(log)
    }

    #[test]
    fn sixty_four_wait(rt: HostRuntime) -> Result<(), Fail> {
        let log = waiting(rt.alloc())?;
        prints(&rt, &log, "fault 17 merge 1.2\n")
    }

    #[test]
    fn no_place_for_one_more_to_wait(rt: HostRuntime) -> Result<(), Fail> {
        let mut log = waiting(rt.alloc())?;
        log.insertion(one(66), Some(counted(65)), one(65))?;
        prints(&rt, &log, "fault 10 replica 1.66\n")
    }

    #[test]
    fn a_full_shelf_takes_a_ready_edit(rt: HostRuntime) -> Result<(), Fail> {
        let mut log = waiting(rt.alloc())?;
        log.insertion(one(1), None, START)?;
        begins(
            &rt,
            &log,
            "shown 65 tombstones 0\n1.1 00000061\n1.2 00000061\n",
        )
    }

    // The length is tested before anything is read.
    #[test]
    fn the_longest_input(rt: HostRuntime) -> Result<(), Fail> {
        let input = vec![in rt.alloc(); 0; 65_536]?;
        assert!(rt; printed(rt.alloc(), &input)?.as_str() == "fault 16 merge 0\n");
        Ok(())
    }

    #[test]
    fn one_byte_too_many(rt: HostRuntime) -> Result<(), Fail> {
        let input = vec![in rt.alloc(); 0; 65_537]?;
        assert!(rt; printed(rt.alloc(), &input)?.as_str() == "fault 15 caller 0\n");
        Ok(())
    }
}
