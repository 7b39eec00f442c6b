// A run that can be packed. The contracts of the crates that plan it, lay it out and put it take it as one value.
ghost use Rattle.runs.specs.PackedList.{PackableRun};
ghost use Rattle.planning.specs.Run.{packable_run_prop};

// Its writes, as three buffers of one length: their ids, masks and values.
#[derive(Clone, Copy)]
pub struct Run<'a> {
    pub ids: &'a [u32],
    pub masks: &'a [u32],
    pub values: &'a [u32],
    pub ghost packable: { PackableRun ids.now masks.now values.now } by { packable_run_prop ids.now masks.now values.now },
}
