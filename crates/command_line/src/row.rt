//! What the words of the command line ask for.
use h265_model::Extra;
use px_plane::Size;

/// How a recording is coded.
#[derive(Clone, Copy, Debug, PartialEq, Eq)]
pub struct Settings {
    /// The size of the desktop, in samples.
    pub size: Size,
    /// How much is tried for each coding unit: 0, 1 or 2.
    pub effort: u32,
    /// How many pictures stand from one IDR picture to the next: at most 65535, and 0 for the first picture alone.
    pub key: u32,
    /// What the stream has besides its pictures.
    pub extra: Extra,
}

/// Record the scripts of 1 to 64 clients, each on a thread of its own.
#[derive(Clone, Copy, Debug, PartialEq, Eq)]
pub struct RecordWords<'a> {
    pub settings: Settings,
    /// How many threads code the rows of a picture: 1 to 64.
    pub workers: u32,
    /// The file of the stream.
    pub out: &'a str,
    /// The files of the scripts.
    pub files: &'a [&'a str],
}

/// Record one script in its own order.
#[derive(Clone, Copy, Debug, PartialEq, Eq)]
pub struct SerialWords<'a> {
    pub settings: Settings,
    /// The file of the stream.
    pub out: &'a str,
    /// The file of the script.
    pub file: &'a str,
}

/// Decode a stream.
#[derive(Clone, Copy, Debug, PartialEq, Eq)]
pub struct DecodeWords<'a> {
    /// The file of the stream.
    pub input: &'a str,
    /// The file of the decoded pictures.
    pub out: &'a str,
}

/// A row of the program's table of words.
#[derive(Clone, Copy, Debug, PartialEq, Eq)]
pub enum Row<'a> {
    /// `record SIZE WORKERS EFFORT KEY OUT FILE..`, or these words after `hash`
    Record(RecordWords<'a>),
    /// `serial SIZE EFFORT KEY OUT FILE`, or these words after `hash`, `segments` or `moves`
    Serial(SerialWords<'a>),
    /// `demo NUMBER`
    Demo(u64),
    /// `decode IN OUT`
    Decode(DecodeWords<'a>),
}
