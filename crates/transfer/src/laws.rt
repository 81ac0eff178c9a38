//! A law of files of rows, the contract of a function that does nothing.

ghost use Rattle.transfer.specs.Laws.{FilesHaveOneMeaning};

/// A law: a text is the file of one set of rows. So what an export wrote is read as the same rows.
pub fn files_have_one_meaning()
    ensures { FilesHaveOneMeaning }
{}
