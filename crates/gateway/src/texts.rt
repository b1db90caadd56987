// A version, a pattern or a specifier by itself, and a name to normalise.
ghost use Rattle.std.specs.Prelude.{◌≡◌, length};
ghost use Rattle.name.specs.Normalise.{normalised, output};
ghost use Rattle.figures.specs.Numbers.{number_of, place_of, count_figures};
ghost use Rattle.gateway.specs.Texts.{version_answer, pattern_answer, specifier_answer};

use figures::{CountFigures, PlaceFigures, tell};

pub fn hulmisker_version(text: &[u8], figures: &mut PlaceFigures) -> u8
    ensures number { result ≡ number_of (version_answer text.now) }
    ensures figures { figures.new ≡ place_of (version_answer text.now) }
{
    tell(&version_entry::version(text), figures)
}

pub fn hulmisker_pattern(text: &[u8], figures: &mut PlaceFigures) -> u8
    ensures number { result ≡ number_of (pattern_answer text.now) }
    ensures figures { figures.new ≡ place_of (pattern_answer text.now) }
{
    tell(&version_entry::pattern(text), figures)
}

pub fn hulmisker_specifier(text: &[u8], figures: &mut PlaceFigures) -> u8
    ensures number { result ≡ number_of (specifier_answer text.now) }
    ensures figures { figures.new ≡ place_of (specifier_answer text.now) }
{
    tell(&version_entry::specifier(text), figures)
}

// The normal form goes to the output's front; its length is the third figure.
pub fn hulmisker_normalise(name: &[u8], out: &mut [u8], figures: &mut CountFigures) -> u8
    ensures number { result ≡ number_of (normalised name.now (length out.old)) }
    ensures figures { figures.new
        ≡ count_figures (normalised name.now (length out.old)) }
    ensures output { out.new ≡ output name.now out.old }
{
    let answer = name::normalise(name, out);
    *figures = [0, 0, answer.unwrap_or(0)];
    tell(&answer, figures)
}
