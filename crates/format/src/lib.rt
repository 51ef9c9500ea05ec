// Theorems on the format of job files, each named by the contract of a function.
#![tactic(auto)]

ghost use Rattle.format.specs.Theorems.{FilesHoldOneThing, ChecksAcceptExactlyFiles, GoodFilesAreAccepted, AtMostOneFile, AtLeastOneFile};

// Reading gives the job and its acts back.
pub fn files_hold_one_thing()
    ensures { FilesHoldOneThing }
{}

// The reader's checks of the form accept exactly the files of the format.
pub fn checks_accept_exactly_files()
    ensures { ChecksAcceptExactlyFiles }
{}

// No file of a job that loads and closes is refused, where the lent slices have room.
pub fn good_files_are_accepted()
    ensures { GoodFilesAreAccepted }
{}

// A job with its acts, and one without acts, has at most one file.
pub fn at_most_one_file()
    ensures { AtMostOneFile }
{}

// A job without acts whose labels and numbers fit has a file.
pub fn at_least_one_file()
    ensures { AtLeastOneFile }
{}
