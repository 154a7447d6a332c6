// Examples of lines of a script and what they do, as tests. They stand in a crate of their own, so that the
// program is not proved a second time for them.
#![tactic(auto)]

ghost use Rattle.std.specs.Prelude.{◌≡◌};

#[cfg(test)]
mod tests {
    use script::errors::LineFault;
    use script::names::Names;
    use script::session::Session;
    use script::tasks::Shelf;
    use script::{arguments, reading};
    use std::test::Fail;
    use text::words::Words;

    // What is wrong with a line.
    fn wrong(session: &mut Session, line: &[u8]) -> Option<LineFault> {
        match session.carry_out(line) {
            Ok(_) => None,
            Err(fault) => Some(fault),
        }
    }

    #[test]
    fn a_report_is_one_line(rt: HostRuntime) -> Result<(), Fail> {
        let mut session = Session::new(rt.alloc());
        let mut line = Vec::new(rt.alloc());
        // the example of FIPS 180-4 for the three bytes "abc"
        let Ok(Some(report)) = session.carry_out(b"digest 616263 # abc") else {
            return Err(Fail::new("no report"));
        };
        report.write(&mut line)?;
        assert!(rt;
            line.as_slice()
                == b"digest: ok ba7816bf8f01cfea414140de5dae2223b00361a396177a9cb410ff61f20015ad".as_slice()
        );
        Ok(())
    }

    #[test]
    fn a_wrong_word_is_told(rt: HostRuntime) {
        let mut session = Session::new(rt.alloc());
        assert_eq!(rt;
            wrong(&mut session, b"digset 00"),
            Some(LineFault::UnknownCommand { word: 1 })
        );
        assert_eq!(rt;
            wrong(&mut session, b"digest"),
            Some(LineFault::MissingWord { word: 2 })
        );
        assert_eq!(rt;
            wrong(&mut session, b"digest 00 00"),
            Some(LineFault::ExtraWord { word: 3 })
        );
        assert_eq!(rt;
            wrong(&mut session, b"a.b = digest -"),
            Some(LineFault::BadName { word: 1 })
        );
        assert_eq!(rt;
            wrong(&mut session, b"a = digest 0g"),
            Some(LineFault::WrongDigit { word: 4, place: 1 })
        );
        assert_eq!(rt;
            wrong(&mut session, b"digest $a"),
            Some(LineFault::UnknownName { word: 2 })
        );
    }

    #[test]
    fn a_token_is_132_bytes(rt: HostRuntime) -> Result<(), Fail> {
        let mut tokens = vec![in rt.alloc(); 1; 132]?;
        tokens.extend_from_slice(&[2; 132])?;
        let mut names = Names::new(rt.alloc());
        names.keep(b"order".to_vec(rt.alloc())?, tokens)?;
        let mut bytes = Vec::new(rt.alloc());
        arguments::read(b"$order.2", 2, &names, &mut bytes)?;
        assert!(rt; bytes.len() == 132);
        assert_eq!(rt; bytes[0], 2);
        assert_eq!(rt;
            arguments::read(b"$order.3", 2, &names, &mut bytes),
            Err(LineFault::NoToken { word: 2 })
        );
        Ok(())
    }

    #[test]
    fn words_are_read_in_their_order(rt: HostRuntime) -> Result<(), Fail> {
        let names = Names::new(rt.alloc());
        let words = Words::of(b"01 02 03 04");
        let (first, second, third, fourth) = reading::four(words, 2, &names, rt.alloc())?;
        assert_eq!(rt; first.as_slice(), [1].as_slice());
        assert_eq!(rt; second.as_slice(), [2].as_slice());
        assert_eq!(rt; third.as_slice(), [3].as_slice());
        assert_eq!(rt; fourth.as_slice(), [4].as_slice());
        assert_eq!(rt;
            reading::shelf_and_length(Words::of(b"tape 64"), 2),
            Ok((Shelf::Tape, 64))
        );
        Ok(())
    }
}
