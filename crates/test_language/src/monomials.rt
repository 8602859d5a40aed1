use alb_mono::{Letters, Mono, Multi, NoMemory, splits, types_of_degree};
use std::cmp::Ordering;
use std::test::Fail;

#[test]
fn letters_have_numbers(rt: HostRuntime) {
    let all = Letters::all();
    let numbers = [
        all.number(b'a'),
        all.number(b'z'),
        all.number(b'A'),
        all.number(b'{'),
    ];
    assert!(rt; numbers == [Some(0), Some(25), None, None]);
    assert!(rt; all.len() == 26);
    let one = Letters::of(b"q");
    assert!(rt; one.number(b'q') == Some(0) && one.number(b'a').is_none() && one.len() == 1);
}

#[test]
fn types_are_in_order(rt: HostRuntime) -> Result<(), NoMemory> {
    let mut all: Vec<u8> = Vec::new(rt.alloc());
    for t in &types_of_degree(rt.alloc(), &Multi::of(&[2, 1, 1]), 2)? {
        all.extend_from_slice(t.counts())?;
    }
    assert!(rt; all.as_slice() == [2, 0, 0, 1, 1, 0, 1, 0, 1, 0, 1, 1].as_slice());
    let mut lefts: Vec<u8> = Vec::new(rt.alloc());
    for (s, _) in &splits(rt.alloc(), &Multi::of(&[2, 1]))? {
        lefts.extend_from_slice(s.counts())?;
    }
    assert!(rt; lefts.as_slice() == [1, 0, 0, 1, 2, 0, 1, 1].as_slice());
    Ok(())
}

#[test]
fn types_add_up(rt: HostRuntime) {
    let (t, u) = (Multi::of(&[2, 0, 1]), Multi::of(&[1, 2, 0]));
    assert!(rt; t.plus(&u).counts() == [3, 2, 1].as_slice());
    assert!(rt; t.plus(&u).minus(&u).counts() == [2, 0, 1].as_slice());
    assert!(rt; t.degree() == 3 && !t.le(&u) && !t.is_same(&u));
    assert!(rt; t.cmp_type(&u) == Ordering::Less);
}

// ab, ba, a(bc) and (ab)c, each less than the next.
#[test]
fn monomials_are_in_order(rt: HostRuntime) -> Result<(), NoMemory> {
    let alloc = rt.alloc();
    let ab = Mono::product(alloc, Mono::Gen(0), Mono::Gen(1))?;
    let ba = Mono::product(alloc, Mono::Gen(1), Mono::Gen(0))?;
    let bc = Mono::product(alloc, Mono::Gen(1), Mono::Gen(2))?;
    let a_bc = Mono::product(alloc, Mono::Gen(0), bc)?;
    let ab_c = Mono::product(alloc, ab.try_copy(alloc)?, Mono::Gen(2))?;
    assert!(rt; ab.compare(&ba) == Ordering::Less);
    assert!(rt; ba.compare(&a_bc) == Ordering::Less);
    assert!(rt; a_bc.cmp_same_type(&ab_c) == Ordering::Less);
    assert!(rt; ab_c.compare(&a_bc) == Ordering::Greater);
    assert!(rt; ab.is_same(&ab) && !ab.is_same(&ba));
    assert!(rt; ab_c.degree() == 3 && ab_c.leaf_at(2) == Some(2) && ab_c.leaf_at(3).is_none());
    assert!(rt; ab_c.type_of(4).counts() == [1, 1, 1, 0].as_slice());
    Ok(())
}
