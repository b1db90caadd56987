// A marker program to check or to run.
ghost use Rattle.std.specs.Prelude.{◌≡◌};
ghost use Rattle.program_check.specs.Check.{checked_program};
ghost use Rattle.figures.specs.Numbers.{number_of, place_of, count_figures};
ghost use Rattle.gateway.specs.Figures.{ran_number};

use figures::{CountFigures, PlaceFigures, tell};

pub fn hulmisker_check(program: &[u8], count: usize, figures: &mut PlaceFigures) -> u8
    ensures number { result ≡ number_of (checked_program program.now count) }
    ensures figures { figures.new ≡ place_of (checked_program program.now count) }
{
    tell(&program_check::check(program, count), figures)
}

// The third figure is 1 for yes and 0 for no.
pub fn hulmisker_run(
    program: &[u8],
    count: usize,
    assignment: u64,
    figures: &mut CountFigures,
) -> u8
    ensures number { result ≡ number_of (ran_number program.now count assignment) }
    ensures figures { figures.new ≡ count_figures (ran_number program.now count assignment) }
{
    let answer = program_run::run(program, count, assignment);
    *figures = [0, 0, usize::from(answer.unwrap_or(false))];
    tell(&answer, figures)
}
