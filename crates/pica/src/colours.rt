// The words that a fragment is given, and those that are stored; a colour as `settings` packs it. The contracts cite specs/Calls.antt.
ghost use Rattle.std.specs.Prelude.{◌≡◌};
ghost use Rattle.pica.specs.Calls.{given_of, stored_of, stored_words};

use combiner::Given;
use settings::colours;
use stores::Stored;

// The seven colours.
pub fn given_of(given: &[u32; 11]) -> Given
    ensures { result ≡ given_of given.now }
{
    Given {
        primary: colours::colour_of(given[0]),
        fragment_primary: colours::colour_of(given[1]),
        fragment_secondary: colours::colour_of(given[2]),
        texture0: colours::colour_of(given[3]),
        texture1: colours::colour_of(given[4]),
        texture2: colours::colour_of(given[5]),
        texture3: colours::colour_of(given[6]),
    }
}

// Colour, stencil and depth as stored before.
pub fn stored_of(given: &[u32; 11]) -> Stored
    ensures { result ≡ stored_of given.now }
{
    Stored {
        colour: colours::colour_of(given[8]),
        stencil: (given[9] % 256) as u8,
        depth: given[10],
    }
}

pub fn words_stored(s: Stored) -> [u32; 3]
    ensures { result ≡ stored_words s }
{
    let colour = s.colour;
    [colours::word_of(colour), s.stencil as u32, s.depth]
}
