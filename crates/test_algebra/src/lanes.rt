ghost use Rattle.std.specs.Prelude.{◌≡◌, ◌<◌, IfOk, length, vec_len};
ghost use Rattle.gf_lanes.specs.Lanes.{AreBelow};

use gf_field::{Field, Residue};
use gf_lanes::{axpy, axpy_lazy, count_nonzero, first_nonzero, reduce_all, scale};
use std::alloc::{AllocError, Global};
use std::test::Fail;

// Without a vector, within one, at its end, and past it.
const LENGTHS: [usize; 6] = [0, 1, 31, 32, 33, 100];

// The number so often.
fn repeated(alloc: Global, length: usize, x: Residue) -> Result<Vec<Residue>, AllocError>
    requires { x < 251 }
    ensures length { IfOk result (λ v. vec_len v ≡ length) }
    ensures residues { IfOk result (λ v. AreBelow 251 v.items) }
{
    let mut list = Vec::new(alloc);
    for _k in 0..length {
        list.push(x)?;
    }
    Ok(list)
}

// 250 + 250 * 250 is 0 modulo 251, also where the sum is not reduced at once; and 250 * 250 is 1.
fn vanishes(field: &Field, sum: &mut [Residue], lazy: &mut [Residue], src: &[Residue]) -> bool
    requires field { field.now ≡ 251 }
    requires sum { AreBelow 251 sum.old }
    requires lazy { AreBelow 251 lazy.old }
    requires src { AreBelow 251 src.now }
    requires lengths { (length sum.old ≡ length src.now) × (length lazy.old ≡ length src.now) }
{
    axpy(field, sum, 250, src);
    axpy_lazy(field, lazy, 250, src);
    reduce_all(field, lazy);
    first_nonzero(sum).is_none() && count_nonzero(sum) == 0 && first_nonzero(lazy).is_none()
}

#[test]
fn adds_at_every_length(rt: HostRuntime) -> Result<(), Fail> {
    let alloc = rt.alloc();
    let field = Field::of(251)?;
    for length in &LENGTHS {
        let mut sum = repeated(alloc, *length, 250)?;
        let mut lazy = repeated(alloc, *length, 250)?;
        let src = repeated(alloc, *length, 250)?;
        let is_zero = vanishes(&field, &mut sum, &mut lazy, &src);
        assert!(rt; is_zero);
        let mut ones = repeated(alloc, *length, 250)?;
        scale(&field, &mut ones, 250);
        assert!(rt; count_nonzero(&ones) == *length);
    }
    Ok(())
}
