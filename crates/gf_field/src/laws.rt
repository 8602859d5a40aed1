//! The laws of the fields. Each is the contract of a function that does nothing.
ghost use Rattle.gf_field.specs.Laws.{NonzeroResiduesAreUnits, TableHasPrimes};

/// Each number of the table is a prime.
pub fn table_has_primes()
    ensures { TableHasPrimes }
{}

/// Modulo a number of the table, each residue but 0 has an inverse.
pub fn nonzero_residues_are_units()
    ensures { NonzeroResiduesAreUnits }
{}
