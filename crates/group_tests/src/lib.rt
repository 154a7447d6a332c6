// The kinds of group at work on worked values: each test is proved safe, and then run.
//
// What the calls answer is proved in the crates of the kinds; these show that the compiled code does it.
// They stand in a crate of their own, since a crate with tests is proved a second time for them.
#![tactic(auto)]

#[cfg(test)]
mod tests {
    use circ523::Point;
    use circle::Pair;
    use group::{Group, SumFault, multiple, weighted_sum};
    use res2039::Residue;
    use scalar::Scalar;
    use std::test::Fail;

    fn element(code: &[u8; 2]) -> Result<Residue, Fail> {
        <Residue as Group>::decode(code).map_err(|_| Fail::new("no element"))
    }

    fn scalar(code: &[u8; 2]) -> Result<Scalar<1019>, Fail> {
        <Residue as Group>::decode_scalar(code).map_err(|_| Fail::new("no scalar"))
    }

    // A shop blinds 49 by 3, a station with the key 2 answers, and the shop unblinds: 1426, 593, 362.
    #[test]
    fn a_blinded_item_is_answered(rt: HostRuntime) -> Result<(), Fail> {
        let blind = scalar(&[0, 3])?;
        let key = scalar(&[0, 2])?;
        let item = multiple(blind, element(&[0, 49])?);
        assert_eq!(rt; item.value, 1426);
        let answer = multiple(key, item);
        assert_eq!(rt; answer.value, 593);
        assert_eq!(rt;
            multiple(<Residue as Group>::invert(blind), answer).value,
            362
        );
        Ok(())
    }

    // 3 G + 6 G = 9 G, over the codes of 3 G and of G; two zero bytes are no code.
    #[test]
    fn a_sum_tells_its_first_bad_item(rt: HostRuntime) -> Result<(), Fail> {
        let weights = [scalar(&[0, 1])?, scalar(&[0, 6])?];
        let nine: Residue = <Residue as Group>::base_multiple(scalar(&[0, 9])?);
        let sum = weighted_sum::<Residue>(&[0, 64, 0, 4], &weights).map_err(|_| Fail::new(
            "both are codes",
        ))?;
        assert_eq!(rt; sum.value, nine.value);
        match weighted_sum::<Residue>(&[0, 64, 0, 0], &weights) {
            Err(SumFault::Item(item, _)) => {
                assert_eq!(rt; item, 2);
                Ok(())
            },
            _ => Err(Fail::new("0 is no element")),
        }
    }

    // 2 G = (372, 48), the word 2 maps to G, and (0, 1) is on the circle and no element.
    #[test]
    fn points_of_the_circle_are_told_apart(rt: HostRuntime) -> Result<(), Fail> {
        let two = <Point as Group>::decode_scalar(&[2]).map_err(|_| Fail::new("2 is a scalar"))?;
        let double: Point = <Point as Group>::base_multiple(two);
        assert_eq!(rt; double.pair, Pair { x: 372, y: 48 });
        let mut bytes = [0; 32];
        bytes[7] = 2;
        let mapped: Point = <Point as Group>::map(&bytes);
        assert_eq!(rt; mapped.pair, Pair::GENERATOR);
        match <Point as Group>::decode(&[0, 0, 0, 1]) {
            Err(_) => Ok(()),
            Ok(_) => Err(Fail::new("the equation alone is not membership")),
        }
    }
}
