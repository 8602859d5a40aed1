use alb_io::MemSink;
use alb_mono::{Letters, Mono, Multi};
use alb_print::{write_count, write_mono, write_named, write_number, write_type};
use std::alloc::Global;
use std::test::Fail;

// The monomial ((ab)a)(bb), with the letters x and y.
fn print_product(alloc: Global, sink: &mut MemSink) -> Result<(), Fail> {
    let ab = Mono::product(alloc, Mono::Gen(0), Mono::Gen(1))?;
    let bb = Mono::product(alloc, Mono::Gen(1), Mono::Gen(1))?;
    let product = Mono::product(alloc, Mono::product(alloc, ab, Mono::Gen(0))?, bb)?;
    write_mono(sink, &Letters::of(b"xy"), &product)?;
    Ok(())
}

#[test]
fn monomials_types_and_numbers(rt: HostRuntime) -> Result<(), Fail> {
    let alloc = rt.alloc();
    let mut sink = MemSink::new(alloc, 3, Vec::new(alloc));
    print_product(alloc, &mut sink)?;
    write_type(&mut sink, &Multi::of(&[2, 0, 11]))?;
    write_type(&mut sink, &Multi::of(&[]))?;
    write_number(&mut sink, i64::MIN)?;
    write_number(&mut sink, 125)?;
    write_count(&mut sink, 0)?;
    write_named(&mut sink, b" of ", 12)?;
    assert_eq!(rt;
        sink.bytes(),
        b"((xy)x)(yy)(2,0,11)()-92233720368547758081250 of 12".as_slice()
    );
    Ok(())
}
