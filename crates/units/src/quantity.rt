// Quantities of a unit: energy in grains or in kilowatt-hours, money in cents.
ghost use Rattle.std.specs.Prelude.{◌≡◌, ℕ, ◌^◌, ◌≤◌, ℤ, pos, ◌+ℤ◌, neg_ℤ, ⊤, unsigned_abs};

use std::alloc::AllocError;
use std::marker::PhantomData;
use std::ops::Add;

// What a quantity counts.
pub trait Unit {
    // the most of it that a quantity holds, either way
    ghost most: { ℕ };

    // so that a quantity can be turned round, and the sum of two is a number
    ghost reach: { most ≤ 10 ^ 30 };
}

// A whole number of a unit, above or below zero.
pub struct Quantity<U: Unit> {
    pub(crate) count: i128,
    unit: PhantomData<U>,
    ghost held: { unsigned_abs count ≤ U.most },
}

// By hand, since neither is derived for a type with a parameter and a ghost field, by `derive_where` neither.
impl<U: Unit> Copy for Quantity<U> {}

impl<U: Unit> Clone for Quantity<U> {
    ghost is_clone = { λ quantity r. r ≡ quantity };

    ghost is_infallible = { λ _. ⊤ };

    fn clone(&self) -> Result<Quantity<U>, AllocError> {
        Ok(*self)
    }
}

impl<U: Unit> Quantity<U> {
    pub(crate) fn of(count: i128) -> Quantity<U>
        requires { unsigned_abs count ≤ U.most }
        ensures { result.count ≡ count }
    {
        Quantity {
            count,
            unit: PhantomData,
        }
    }

    pub fn zero() -> Quantity<U>
        ensures { result.count ≡ pos 0 }
    {
        Quantity::of(0)
    }

    pub fn count(self) -> i128
        ensures { result ≡ self.count }
    {
        self.count
    }

    // As much the other way.
    pub fn negated(self) -> Quantity<U>
        ensures { result.count ≡ neg_ℤ self.count }
    {
        Quantity::of(-self.count)
    }
}

impl<U: Unit> Add<Quantity<U>> for Quantity<U> {
    type Output = Quantity<U>;

    ghost can_add = { λ p q. unsigned_abs (p.count +ℤ q.count) ≤ U.most };

    ghost add_gives = { λ p q r. r.count ≡ p.count +ℤ q.count };

    fn add(self, other: Quantity<U>) -> Quantity<U> {
        Quantity::of(self.count + other.count)
    }
}
