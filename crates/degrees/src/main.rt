// Prints the standard's rows that no quadratic undoes, each with the degree of its inverse, and how many they are.
#![tactic(auto)]

use asking::printing::{Written, status};
use qpp::InverseForm;
use std::io;
use std::process::ExitCode;
use triples::Triple;

// A row of the standard, and the degree of its inverse.
#[derive(Clone, Copy)]
struct Row {
    triple: Triple,
    degree: u32,
}

impl From<Triple> for Row {
    fn from(triple: Triple) -> Row {
        let inverse = InverseForm::from(qpp::inverse(triple.k, triple.f1, triple.f2));
        Row {
            triple,
            degree: inverse.degree,
        }
    }
}

// Prints the rows whose inverse has a degree above 2, each as it is found, and how many they are. No `Vec` of them: a program that takes no
// memory cannot lack it.
fn print_steep_rows<R: Print>(rt: &R) -> io::Result<()> {
    let rows = standard::all_rows();
    let mut steep = 0u32;
    for row in rows
        .iter()
        .map(|row| Row::from(*row))
        .filter(|row| row.degree > 2)
    {
        let Triple { k, f1, f2 } = row.triple;
        println!(rt; "{k} {f1} {f2} {}", row.degree)?;
        steep = steep.wrapping_add(1);
    }
    println!(rt; "{steep} of {} rows have D above 2", rows.len())
}

fn main(rt: HostRuntime) -> ExitCode {
    status(Written::of(print_steep_rows(&rt)))
}
