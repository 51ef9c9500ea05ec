// The listed network of the same meaning as the gearbox job.
use network::line_record::LineRecord;

pub const NODES: usize = 6;

pub const LINES: usize = 9;

// Source, shaft and gear, signs 10 and 14, sink; the last line carries the total back from sink to source.
pub fn listed_lines() -> [LineRecord; LINES] {
    [
        LineRecord::new(0, 1, 1, 1),
        LineRecord::new(0, 2, 1, 1),
        LineRecord::new(1, 3, 0, 1),
        LineRecord::new(1, 4, 0, 1),
        LineRecord::new(2, 3, 0, 1),
        LineRecord::new(2, 4, 0, 1),
        LineRecord::new(3, 5, 0, 1),
        LineRecord::new(4, 5, 0, 1),
        LineRecord::new(5, 0, 0, 64),
    ]
}
