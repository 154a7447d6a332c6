// What is joined with itself n times: a multiple where the join is a sum, a power where it is a product.
ghost use Rattle.std.specs.Prelude.{◌≡◌};
ghost use Rattle.numbers.specs.Repeated.{JoinLaws, repeated};

// Values with a join and a null. That the null adds nothing is asked of joins alone: a number past the
// modulus may be taken to its remainder.
pub trait Join: Copy {
    ghost nothing: { Self };

    ghost joined: { Self → Self → Self };

    fn null() -> Self
        ensures { result ≡ nothing };

    fn join(self, other: Self) -> Self
        ensures { result ≡ joined self other };

    ghost laws: { JoinLaws nothing joined };
}

// n of x joined, by doubling.
pub fn repeated<J: Join>(x: J, n: u16) -> J
    ensures { result ≡ repeated J.nothing J.joined n x }
{
    let mut total = J::null();
    let mut doubled = x;
    let mut left = n;
    while left > 0 {
        if left % 2 == 1 {
            total = total.join(doubled);
        }
        doubled = doubled.join(doubled);
        left /= 2;
    }
    total
}
