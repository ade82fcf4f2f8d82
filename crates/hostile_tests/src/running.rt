//! Lines that have to be done.
use crate::setting::Setting;
use std::alloc::Global;
use std::process::Abort;
use std::test::Fail;

/// Each line is done, one after the other, and prints what stands beside it.
pub(crate) fn does(
    rt: &impl Abort,
    alloc: Global,
    setting: &mut Setting,
    rows: &[(&str, &str)],
) -> Result<(), Fail> {
    for (line, short) in rows {
        setting.clear_streams(alloc)?;
        assert_eq!(rt; setting.run(alloc, *line)?, 0, "{line}");
        assert!(rt; setting.printed(alloc, *short)?, "{line}");
    }
    Ok(())
}
