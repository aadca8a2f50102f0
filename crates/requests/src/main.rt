// Worked examples of the requests, run: a line for each, with what it gave.
#![tactic(auto)]

mod bounds;
mod four_high;
mod paintings;
mod printing;
mod rows;
mod segment_sets;
mod standing;

use std::io;

fn main(rt: HostRuntime) -> io::Result<()> {
    crate::segment_sets::print_cases(&rt)?;
    crate::paintings::planes::print_cases(&rt)?;
    crate::rows::print_cases(&rt)?;
    crate::bounds::print_cases(&rt)?;
    crate::standing::print_cases(&rt)?;
    crate::four_high::print_cases(&rt)?;
    crate::paintings::languages::print_cases(&rt)
}
