//! What the arguments and options are called: an argument as help shows it, an option as it is typed.

/// The first tape.
pub const TAPE: &str = "TAPE";

/// The script of losses.
pub const SCRIPT: &str = "SCRIPT";

/// Further tapes.
pub const MORE: &str = "MORE";

/// Where the console is.
pub const LINE: &str = "LINE";

/// The file of octal words.
pub const OCTAL_WORDS: &str = "WORDS";

/// Whether each block is listed.
pub const BLOCKS: &str = "blocks";

/// The file of a new tape.
pub const FILE: &str = "FILE";

/// The first word that is saved or tested.
pub const FROM: &str = "FROM";

/// The last one.
pub const TO: &str = "TO";

/// How many words of memory a simulated machine has.
pub const WORDS: &str = "words";

/// How its console answers.
pub const STYLE: &str = "style";

/// The file of the record.
pub const RECORD: &str = "record";

/// Whether each word is looked at again.
pub const RECHECK: &str = "recheck";

/// Whether each word is looked at twice.
pub const CAREFUL: &str = "careful";

/// Whether each word is looked at only once.
pub const ONCE: &str = "once";

/// Whether a stub takes the words.
pub const FAST: &str = "fast";

/// Where the program is started, or a saved tape says that it is.
pub const START: &str = "start";

/// Whether nothing is started.
pub const NO_START: &str = "no-start";

/// The word that is tried.
pub const ADDRESS: &str = "address";

/// Of how many words one is tested.
pub const EVERY: &str = "every";

/// For how long the started program is listened to.
pub const LISTEN: &str = "listen";

/// How many mishaps are survived.
pub const PATIENCE: &str = "patience";

/// How long a silence means that nothing more is coming.
pub const QUIET: &str = "quiet";

/// Whether the run has a line in a log.
pub const LOG: &str = "log";
