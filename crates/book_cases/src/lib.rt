// Examples of what the books do, as tests: the bytes of a small book, the worked case of a book with one place,
// and the refusal of memory that holds no record. They stand in a crate of their own, so that a kind of book
// is not proved a second time for its examples.
#![tactic(auto)]

ghost use Rattle.std.specs.Prelude.{◌≡◌};

#[cfg(test)]
mod tests {
    use book::{Book, Layout, Work, one_place};
    use chained::{Chained, ChainedBook};
    use faults::{BookFault, WireFault};
    use std::test::Fail;
    use tape::{Tape, TapeBook};

    // One place with a pair in it, and three later bytes.
    #[rattlefmt::skip]
    const TAPE: [u8; 39] = [
        0, 1,
        1, 2, 7, 7, 7, 7, 7, 7, 7, 7, 7, 7, 7, 7, 7, 7, 7, 7, 7, 7, 7, 7, 7, 7, 7, 7, 7, 7, 7, 7, 7, 7, 7, 7,
        0xee, 0xee, 0xee,
    ];

    #[test]
    fn tape_lies_as_drawn(rt: HostRuntime) -> Result<(), Fail> {
        let mut memory = [0xee; 39];
        let capacity = Tape::capacity_in(39)?;
        let mut book = TapeBook::over(&mut memory, capacity);
        book.mark(0x0102, &[7; 32])?;
        assert_eq!(rt; book.memory(), TAPE.as_slice());
        Ok(())
    }

    #[test]
    fn tape_one_place_as_worked(rt: HostRuntime) -> Result<(), Fail> {
        let mut memory = [0xee; 69];
        let capacity = Tape::capacity_in(69)?;
        let mut book = TapeBook::over(&mut memory, capacity);
        let told = one_place(&mut book, &[1; 32], &[2; 32]);
        assert_eq!(rt; told.first, Ok(()));
        assert_eq!(rt; told.again, Err(BookFault::Spent));
        assert_eq!(rt; told.other, Err(BookFault::Full));
        assert_eq!(rt; told.dropped, 1);
        assert_eq!(rt; told.last, Ok(()));
        Ok(())
    }

    // Three places and two later bytes. Three pairs were marked in chain 7, and the second was dropped: the
    // chain leads from record 3 to record 1, and record 2 is free.
    #[rattlefmt::skip]
    const CHAINED: [u8; 242] = [
        0, 0, 0, 0, 0, 0, 0, 0, 0, 0, 0, 0, 0, 0, 0, 3,
        0, 0, 0, 0, 0, 0, 0, 0, 0, 0, 0, 0, 0, 0, 0, 0,
        0, 0, 0, 0, 0, 0, 0, 0, 0, 0, 0, 0, 0, 0, 0, 0,
        0, 0, 0, 0, 0, 0, 0, 0, 0, 0, 0, 0, 0, 0, 0, 0,
        0, 0, 0, 0, 0, 0, 0, 0, 0, 0, 0, 0, 0, 0, 0, 0,
        0, 0, 0, 0, 0, 0, 0, 0, 0, 0, 0, 0, 0, 0, 0, 0,
        0, 0, 0, 0, 0, 0, 0, 0, 0, 0, 0, 0, 0, 0, 0, 0,
        0, 0, 0, 0, 0, 0, 0, 0, 0, 0, 0, 0, 0, 0, 0, 0,
        0, 2,
        0, 2,
        0, 0, 1, 2, 7, 7, 7, 7, 7, 7, 7, 7, 7, 7, 7, 7, 7, 7, 7, 7, 7, 7, 7, 7, 7, 7, 7, 7, 7, 7, 7, 7, 7, 7, 7, 7,
        0, 0, 0, 0, 0, 0, 0, 0, 0, 0, 0, 0, 0, 0, 0, 0, 0, 0, 0, 0, 0, 0, 0, 0, 0, 0, 0, 0, 0, 0, 0, 0, 0, 0, 0, 0,
        0, 1, 1, 2, 9, 9, 9, 9, 9, 9, 9, 9, 9, 9, 9, 9, 9, 9, 9, 9, 9, 9, 9, 9, 9, 9, 9, 9, 9, 9, 9, 9, 9, 9, 9, 71,
        0xee, 0xee,
    ];

    #[test]
    fn chained_lies_as_drawn(rt: HostRuntime) -> Result<(), Fail> {
        let mut memory = [0xee; 242];
        let capacity = Chained::capacity_in(242)?;
        let mut book = ChainedBook::over(&mut memory, capacity);
        let mut third = [9; 32];
        third[31] = 71;
        book.mark(0x0102, &[7; 32])?;
        book.mark(0x0103, &[7; 32])?;
        book.mark(0x0102, &third)?;
        assert_eq!(rt; book.drop_epoch(0x0103), 1);
        assert_eq!(rt; book.memory(), CHAINED.as_slice());
        Ok(())
    }

    #[test]
    fn chained_one_place_as_worked(rt: HostRuntime) -> Result<(), Fail> {
        let mut memory = [0xee; 203];
        let capacity = Chained::capacity_in(203)?;
        let mut book = ChainedBook::over(&mut memory, capacity);
        let told = one_place(&mut book, &[1; 32], &[2; 32]);
        assert_eq!(rt; told.first, Ok(()));
        assert_eq!(rt; told.again, Err(BookFault::Spent));
        assert_eq!(rt; told.other, Err(BookFault::Full));
        assert_eq!(rt; told.dropped, 1);
        assert_eq!(rt; told.last, Ok(()));
        Ok(())
    }

    // Work that asks a book how many pairs it takes.
    #[derive(Drop)]
    struct Ask;

    impl Work for Ask {
        type Answer = u16;

        ghost told = { λ _ b n. n ≡ b.capacity };

        fn on<B: Book + Drop>(self, book: B) -> u16 {
            book.capacity()
        }
    }

    #[test]
    fn short_memory_is_refused(rt: HostRuntime) {
        assert_eq!(rt;
            Tape::with_book(&mut [0; 35], Ask),
            Err(WireFault::WrongLength)
        );
        assert_eq!(rt; Tape::with_book(&mut [0; 36], Ask), Ok(1));
        assert_eq!(rt;
            Chained::with_book(&mut [0; 167], Ask),
            Err(WireFault::WrongLength)
        );
        assert_eq!(rt; Chained::with_book(&mut [0; 204], Ask), Ok(2));
    }
}
