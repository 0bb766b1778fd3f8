//! Whether a call was taken, or gave something; what it gave is dropped.

/// Whether it was taken.
pub(crate) fn is_taken<T: Drop, E: Drop>(answer: Result<T, E>) -> bool {
    let well = answer.is_ok();
    drop(answer);
    well
}

/// Whether it gave something.
pub(crate) fn gives_some<T: Drop, E: Drop>(answer: Result<Option<T>, E>) -> bool {
    let well = matches!(&answer, Ok(Some(_)));
    drop(answer);
    well
}

/// Whether it was taken, and gave nothing.
pub(crate) fn gives_none<T: Drop, E: Drop>(answer: Result<Option<T>, E>) -> bool {
    let well = matches!(&answer, Ok(None));
    drop(answer);
    well
}

/// Whether there was something.
pub(crate) fn is_there<T: Drop>(found: Option<T>) -> bool {
    let well = found.is_some();
    drop(found);
    well
}
