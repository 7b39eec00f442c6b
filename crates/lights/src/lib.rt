// The eight lights: the fields of one as a record, and how they are read from the cells. The contracts cite specs/Lights.antt.
#![tactic(auto)]

ghost use Rattle.std.specs.Prelude.{◌≡◌, ◌<◌, length};
ghost use Rattle.numbers.specs.Ranges.{in_cells, negated};
ghost use Rattle.lights.specs.Lights.{light_colour_in, vector_in, spot_in, config_in, attenuation_in, light_in, lights_in};

// +0 to +3: 000 gives each channel eight bits, and marks the two above them UNKNOWN.
#[derive(Clone, Copy, Debug, PartialEq, Eq)]
pub struct LightColour {
    pub blue: u8,
    pub blue_unknown: u32,
    pub green: u8,
    pub green_unknown: u32,
    pub red: u8,
    pub red_unknown: u32,
}

// +4, +5: floats of 16 bits, as their bits.
#[derive(Clone, Copy, Debug, PartialEq, Eq)]
pub struct LightVector {
    pub x: u32,
    pub y: u32,
    pub z: u32,
}

// +6, +7: signed, and stored negated: -4,095..4,096, in units of 1/2048.
#[derive(Clone, Copy, Debug, PartialEq, Eq)]
pub struct SpotDirection {
    pub x: i32,
    pub y: i32,
    pub z: i32,
}

// +9.
#[derive(Clone, Copy, Debug, PartialEq, Eq)]
pub struct LightConfig {
    pub light_type: u32,
    pub two_side_diffuse: u32,
    pub geometric_factor0: u32,
    pub geometric_factor1: u32,
}

// +A, +B: floats of 20 bits, as their bits.
#[derive(Clone, Copy, Debug, PartialEq, Eq)]
pub struct Attenuation {
    pub bias: u32,
    pub scale: u32,
}

#[derive(Clone, Copy, Debug, PartialEq, Eq)]
pub struct Light {
    pub specular0: LightColour,
    pub specular1: LightColour,
    pub diffuse: LightColour,
    pub ambient: LightColour,
    pub vector: LightVector,
    pub spot: SpotDirection,
    pub config: LightConfig,
    pub attenuation: Attenuation,
}

// From 140, 150, .., 1B0 on.
#[derive(Clone, Copy, Debug, PartialEq, Eq)]
pub struct Lights {
    pub light0: Light,
    pub light1: Light,
    pub light2: Light,
    pub light3: Light,
    pub light4: Light,
    pub light5: Light,
    pub light6: Light,
    pub light7: Light,
}

// The colour in register i.
fn read_colour(cells: &[u32; 768], i: usize) -> LightColour
    requires { i < 768 }
    ensures { result ≡ light_colour_in (in_cells cells.now i) }
{
    let x = cells[i];
    LightColour {
        blue: (x % 256) as u8,
        blue_unknown: (x >> 8) % 4,
        green: ((x >> 10) % 256) as u8,
        green_unknown: (x >> 18) % 4,
        red: ((x >> 20) % 256) as u8,
        red_unknown: (x >> 28) % 4,
    }
}

// The vector of the light whose registers begin at b.
fn read_vector(cells: &[u32; 768], b: usize) -> LightVector
    requires { b < 512 }
    ensures { result ≡ vector_in (in_cells cells.now) b }
{
    let low = cells[b + 4];
    let high = cells[b + 5];
    LightVector {
        x: low % 0x10000,
        y: (low >> 16) % 0x10000,
        z: high % 0x10000,
    }
}

// Minus a number of thirteen bits read as signed. The remainder is the signed number plus 4,096, so that no branch asks for the sign.
fn negated_thirteen(x: u32) -> i32
    requires { x < 8192 }
    ensures { result ≡ negated 13 x }
{
    4096 - ((x + 4096) % 8192) as i32
}

fn read_spot(cells: &[u32; 768], b: usize) -> SpotDirection
    requires { b < 512 }
    ensures { result ≡ spot_in (in_cells cells.now) b }
{
    let low = cells[b + 6];
    let high = cells[b + 7];
    SpotDirection {
        x: negated_thirteen(low % 8192),
        y: negated_thirteen((low >> 16) % 8192),
        z: negated_thirteen(high % 8192),
    }
}

fn read_config(cells: &[u32; 768], b: usize) -> LightConfig
    requires { b < 512 }
    ensures { result ≡ config_in (in_cells cells.now) b }
{
    let x = cells[b + 9];
    LightConfig {
        light_type: x % 2,
        two_side_diffuse: (x >> 1) % 2,
        geometric_factor0: (x >> 2) % 2,
        geometric_factor1: (x >> 3) % 2,
    }
}

fn read_attenuation(cells: &[u32; 768], b: usize) -> Attenuation
    requires { b < 512 }
    ensures { result ≡ attenuation_in (in_cells cells.now) b }
{
    Attenuation {
        bias: cells[b + 0xA] % 0x100000,
        scale: cells[b + 0xB] % 0x100000,
    }
}

fn read_light(cells: &[u32; 768], b: usize) -> Light
    requires { b < 512 }
    ensures { result ≡ light_in (in_cells cells.now) b }
{
    Light {
        specular0: read_colour(cells, b),
        specular1: read_colour(cells, b + 1),
        diffuse: read_colour(cells, b + 2),
        ambient: read_colour(cells, b + 3),
        vector: read_vector(cells, b),
        spot: read_spot(cells, b),
        config: read_config(cells, b),
        attenuation: read_attenuation(cells, b),
    }
}

// All of them.
pub fn read_lights(cells: &[u32; 768]) -> Lights
    ensures { result ≡ lights_in (in_cells cells.now) }
{
    Lights {
        light0: read_light(cells, 0x140),
        light1: read_light(cells, 0x150),
        light2: read_light(cells, 0x160),
        light3: read_light(cells, 0x170),
        light4: read_light(cells, 0x180),
        light5: read_light(cells, 0x190),
        light6: read_light(cells, 0x1A0),
        light7: read_light(cells, 0x1B0),
    }
}
