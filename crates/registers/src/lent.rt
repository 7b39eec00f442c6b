// A state in the three buffers that it is lent in.
ghost use Rattle.registers.specs.State.{Whole};

#[derive(Drop)]
pub struct Lent<'a> {
    pub cells: &'a mut [u32; 768],
    pub fog: &'a mut [u32; 128],
    pub light: &'a mut [u32; 6144],
    pub ghost whole: { Whole cells.now fog.now light.now },
}
