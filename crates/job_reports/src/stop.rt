use store_runs::Stop;

/// How a run of jobs stopped, once they ran.
#[derive(Clone, Copy, PartialEq, Eq)]
pub enum JobsStop {
    /// Their lines and the summary went out.
    Finished,
    /// These were cut.
    WriteFault,
    /// These went out, and the disk failed: at an ask of a job, or at the snapshot.
    DiskFault,
    /// These went out, and there was no memory for a job, or for the snapshot.
    NoMemory,
}

/// How `serve` stopped.
#[derive(Clone, Copy)]
pub enum ServeStop {
    /// The input is no plan of so many lanes. No job ran.
    BadPlan,
    /// It stopped before its jobs ran: the input failed, the setup stopped, or there was no memory.
    Early(Stop),
    /// Its jobs ran.
    Ran(JobsStop),
}
