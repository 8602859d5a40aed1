use gf_field::{Field, FieldError};

const NUMBERS: [(u64, bool); 13] = [
    (0, false),
    (1, false),
    (2, true),
    (4, false),
    (9, false),
    (121, false),
    (127, true),
    (250, false),
    (251, true),
    (252, false),
    (257, false),
    (65_538, false),
    (4_294_967_298, false),
];

#[test]
fn accepts_primes_alone(rt: HostRuntime) {
    for (p, is_accepted) in &NUMBERS {
        assert!(rt; Field::of(*p).is_ok() == *is_accepted);
    }
}

#[test]
fn computes_modulo_251(rt: HostRuntime) -> Result<(), FieldError> {
    let field = Field::of(251)?;
    let signs = [
        field.signed(125),
        field.signed(126),
        field.signed(250),
        field.signed(0),
    ];
    assert!(rt; signs == [125, -125, -1, 0]);
    let sums = [
        field.add(200, 100),
        field.sub(3, 5),
        field.mul(100, 100),
        field.neg(1),
        field.neg(0),
    ];
    assert!(rt; sums == [49, 249, 211, 250, 0]);
    let residues = [
        field.residue(-1),
        field.residue(502),
        field.residue(-252),
        field.inv(2),
        field.inv(250),
    ];
    assert!(rt; residues == [250, 0, 250, 126, 250]);
    Ok(())
}
