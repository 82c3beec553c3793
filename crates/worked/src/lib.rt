#![tactic(auto)]
// Worked examples of the two layouts and of the rules, as one theorem on the definitions that contracts cite, and tests of
// the layouts on the same cells.
ghost use Rattle.worked.specs.Worked.{WorkedExamples};

// Every worked example holds.
pub fn examples_worked()
    ensures { WorkedExamples }
{}

#[cfg(test)]
mod tests {
    use cells::{Descriptor, Store, StoreFault};
    use layouts::bytes::Byte8;
    use layouts::words::Sixbit;
    use std::test::Fail;

    const MINUS_ONE: Descriptor = Descriptor {
        value: -1,
        flags: 16,
        kind: 9,
    };

    const PLUS_ONE: Descriptor = Descriptor {
        value: 1,
        flags: 0,
        kind: 6,
    };

    // A cell and three bytes that belong to no cell.
    #[test]
    fn byte8_descriptor(rt: HostRuntime) -> Result<(), Fail> {
        let mut store = Byte8::new(vec![in rt.alloc(); 7; 11]?);
        assert_eq!(rt; store.cells(), 1);
        store.set_descriptor(0, MINUS_ONE)?;
        assert_eq!(rt; store.descriptor(0)?, MINUS_ONE);
        let bytes = store.into_bytes();
        assert!(rt;
            bytes.as_slice() == [0xff, 0xff, 0xff, 0xff, 0x10, 0x00, 0x00, 0x09, 7, 7, 7].as_slice()
        );
        Ok(())
    }

    #[test]
    fn byte8_characters(rt: HostRuntime) -> Result<(), Fail> {
        let mut store = Byte8::with_cells(rt.alloc(), 2)?;
        store.set_character(1, 0, b'A')?;
        store.set_character(1, 7, 255)?;
        store.move_cell(1, 0)?;
        assert_eq!(rt; store.character(0, 7)?, 255);
        let bytes = store.into_bytes();
        assert!(rt;
            bytes.as_slice() == [65, 0, 0, 0, 0, 0, 0, 255, 65, 0, 0, 0, 0, 0, 0, 255].as_slice()
        );
        Ok(())
    }

    #[test]
    fn byte8_refusals(rt: HostRuntime) -> Result<(), Fail> {
        let mut store = Byte8::with_cells(rt.alloc(), 2)?;
        let flags = Descriptor {
            value: 0,
            flags: 32,
            kind: 0,
        };
        let kind = Descriptor {
            value: 0,
            flags: 0,
            kind: 16_777_216,
        };
        assert_eq!(rt; store.descriptor(2), Err(StoreFault::NoCell));
        assert_eq!(rt; store.set_descriptor(2, flags), Err(StoreFault::NoCell));
        assert_eq!(rt;
            store.set_descriptor(1, flags),
            Err(StoreFault::BadDescriptor)
        );
        assert_eq!(rt;
            store.set_descriptor(1, kind),
            Err(StoreFault::BadDescriptor)
        );
        assert_eq!(rt; store.character(1, 8), Err(StoreFault::NoPlace));
        assert_eq!(rt; store.set_character(2, 8, 0), Err(StoreFault::NoCell));
        assert_eq!(rt; store.move_cell(0, 2), Err(StoreFault::NoCell));
        Ok(())
    }

    // The upper four bits are cleared by a write, and the word beyond is not touched.
    #[test]
    fn sixbit_descriptor(rt: HostRuntime) -> Result<(), Fail> {
        let mut store = Sixbit::new(vec![in rt.alloc(); u64::MAX; 2]?);
        store.set_descriptor(0, PLUS_ONE)?;
        assert_eq!(rt; store.descriptor(0)?, PLUS_ONE);
        let words = store.into_words();
        assert!(rt; words.as_slice() == [25_769_803_777, u64::MAX].as_slice());
        Ok(())
    }

    #[test]
    fn sixbit_characters(rt: HostRuntime) -> Result<(), Fail> {
        let mut store = Sixbit::with_cells(rt.alloc(), 2)?;
        store.set_character(0, 0, b'A')?;
        store.set_character(0, 9, b'_')?;
        store.move_cell(0, 1)?;
        assert_eq!(rt; store.character(1, 0)?, b'A');
        assert_eq!(rt; store.character(1, 1)?, b' ');
        let words = store.into_words();
        assert!(rt; words.as_slice() == [0x0840_0000_0000_003f, 0x0840_0000_0000_003f].as_slice());
        Ok(())
    }

    #[test]
    fn sixbit_refusals(rt: HostRuntime) -> Result<(), Fail> {
        let mut store = Sixbit::with_cells(rt.alloc(), 1)?;
        let kind = Descriptor {
            value: 0,
            flags: 0,
            kind: 1_048_576,
        };
        assert_eq!(rt;
            store.set_descriptor(0, kind),
            Err(StoreFault::BadDescriptor)
        );
        assert_eq!(rt; store.set_character(0, 10, 0), Err(StoreFault::NoPlace));
        assert_eq!(rt; store.set_character(0, 9, 31), Err(StoreFault::BadCode));
        assert_eq!(rt; store.set_character(0, 9, 96), Err(StoreFault::BadCode));
        assert_eq!(rt; store.set_character(1, 10, 0), Err(StoreFault::NoCell));
        Ok(())
    }
}
