//! Reports of checks: numbers in structs of the C header, and texts that C borrows. It knows nothing of
//! checks.

/// The struct `sm_finding` of the C header.
#[repr(C)]
#[derive(Clone, Copy)]
pub struct FindingNumbers {
    pub code: u32,
    pub severity: u32,
    pub place: u32,
    pub lines: i32,
    pub columns: i32,
    pub line: usize,
    pub index: usize,
}

/// The struct `sm_report_counts` of the C header.
#[repr(C)]
#[derive(Clone, Copy)]
pub struct ReportCounts {
    pub invalid: u64,
    pub suspicious: u64,
    pub findings: usize,
}

/// A finding.
#[derive(Drop)]
pub struct ReportFinding {
    /// Code, severity and position.
    pub numbers: FindingNumbers,
    /// The indexes of the sections that lead to the map, the outermost first.
    pub sections: Vec<usize>,
    /// The key.
    pub key: String,
    /// How the rule is broken.
    pub sentence: String,
}

/// The findings of a check, and how many there are.
#[derive(Drop)]
pub struct CheckReport {
    /// The first findings of each code.
    pub findings: Vec<ReportFinding>,
    /// How many there are in all.
    pub counts: ReportCounts,
}
