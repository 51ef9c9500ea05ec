// Whole jobs, run.
use crate::closed_job;
use layers::entries::Entries;
use network::Network;
use network::legend::Legend;
use network::role::Role;
use series::one_series::OneSeries;
use series::records::{PartRecord, SignRecord};
use std::test::Fail;

// Each row: the bounds of the total, and the one line of the closed job, or the number of the refusal.
#[test]
fn bounds_out_of_order_are_refused(rt: HostRuntime) {
    let rows = [
        (0, 0, Ok(Some((1, 0, 0, 0)))),
        (3, 65535, Ok(Some((1, 0, 3, 65535)))),
        (1, 0, Err(9)),
    ];
    for (lo, hi, line) in rows {
        let job = closed_job(OneSeries::new(), lo, hi);
        assert_eq!(rt;
            job.map(|job| job.line(0))
                .map_err(|refusal| refusal.number()),
            line
        );
    }
}

#[test]
fn the_last_line_stands_for_nothing_in_particular(rt: HostRuntime) -> Result<(), Fail> {
    let part = PartRecord {
        mask: 1,
        standing: 2,
    };
    let sign = SignRecord { least: 0, most: 1 };
    let mut series = OneSeries::new();
    series.load(1, 1, &[part], &[sign])?;
    let job = Entries::new(closed_job(series, 1, 1)?);
    assert_eq!(rt; job.nodes(), 4);
    assert_eq!(rt; job.lines(), 4);
    assert_eq!(rt; job.line(3), Some((3, 0, 1, 1)));
    assert_eq!(rt; job.role(2), Role::Count(0));
    assert_eq!(rt; job.role(3), Role::Other);
    assert_eq!(rt; job.pair_line(0, 0), Some(1));
    Ok(())
}
