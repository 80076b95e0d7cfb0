use css_drive::DriveConfig;

/// What each visit of a watch is to do.
pub struct Plan {
    /// The run of its companion. Its limit counts from the watch's first turn, and its own reports aren't written.
    pub run: DriveConfig,
    /// The time between two reports of the watch in nanoseconds.
    pub report_every: u64,
}

// By hand: a derived drop is opened at each exit of each caller's proof.
impl Drop for Plan {
    fn drop(self) {
        let Plan {
            run: _,
            report_every: _,
        } = self;
    }
}
