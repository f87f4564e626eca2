//! Fractions from numbers with a decimal scale, as databases keep them: 25/2 from 1250 with the scale 2.
ghost use Rattle.std.specs.Prelude.{◌≡◌, ◌^◌, ◌≤◌, pos};
ghost use Rattle.ratio_integer.specs.Fraction.{ChecksLowest};
ghost use Rattle.ratio_c.specs.Calls.{IsScaledAnswer};
ghost use Rattle.ratio_c.specs.Crossing.{wide_number};

use crate::code::BAD_OPTION;
use crate::crossing::{Digest, Reply, checked, refused};
use crate::each::Call;
use crate::one_fraction::cast;
use crate::wide::Wide;
use ratio_integer::lowest_terms;
use std::marker::PhantomData;

/// A number and its scale: the value is the number by 10^scale, so 1250 with the scale 2 is 12.50.
#[repr(C)]
#[derive(Drop)]
pub struct Scaled {
    pub number: Wide,
    pub scale: i32,
}

/// The call that gives fractions of the type `T`: 1250 with the scale 2 gives 25/2.
#[derive(Drop)]
pub struct Scaling<T> {
    marker: PhantomData<T>,
}

impl<T> Scaling<T> {
    /// The call that makes fractions of the type `T` from numbers with a scale.
    #[inline(always)]
    pub fn new() -> Scaling<T> {
        Scaling {
            marker: PhantomData,
        }
    }
}

impl<T: Digest, A: Reply<T>> Call<Scaled, A> for Scaling<T> {
    ghost gives = { λ _ x answer. IsScaledAnswer T.lo T.hi (wide_number x.number) x.scale (A.said answer) };

    #[inline(always)]
    fn answer(&self, x: &Scaled) -> A {
        if x.scale < 0 || 38 < x.scale {
            return refused(BAD_OPTION);
        }
        let n = x.number.number();
        checked(from_scaled::<T>(n, x.scale.unsigned_abs()))
    }
}

/// The lowest terms of the number by 10^scale, or `None` if they do not fit the type.
fn from_scaled<T: Digest>(n: i128, scale: u32) -> Option<(T, T)>
    requires { scale ≤ 38 }
    ensures { ChecksLowest (λ r. T.value r.0) (λ r. T.value r.1) T.lo T.hi (n, pos (10 ^ scale)) result }
{
    let power = 10u128.pow(scale) as i128;
    let (numer, denom) = lowest_terms(n, power);
    cast::<i128, T>(numer, denom)
}
