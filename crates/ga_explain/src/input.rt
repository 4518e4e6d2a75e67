ghost use Rattle.std.specs.Prelude.{◌≡◌, map};
ghost use Rattle.ga_explain.specs.Table.{input_entries};
ghost use Rattle.ga_explain.specs.Topic.{entry_of};

use crate::topic::{Topic, topic};

/// The faults of the input and of the output, in the order of the pages.
#[tactic(auto, unfolding(crate::specs::Table::input_entries))]
pub fn topics() -> [Topic; 13]
    ensures { map entry_of result ≡ input_entries }
{
    [
        topic!("read", "the file can't be opened or read", READ),
        topic!("NoFile", "no file has this name", NO_FILE),
        topic!("Folder", "the name of a folder, not of a file", FOLDER),
        topic!(
            "NotAFile",
            "the name of something that isn't a regular file",
            NOT_A_FILE
        ),
        topic!(
            "Outside",
            "a source that isn't in the folder of the file that names it, or below",
            OUTSIDE
        ),
        topic!("Exists", "", EXISTS),
        topic!("NoName", "", NO_NAME),
        topic!("BadText", "a text that isn't UTF-8", BAD_TEXT),
        topic!("BadCode", "", BAD_CODE),
        topic!("write", "", WRITE),
        topic!("Write", "", REFUSED_WRITE),
        topic!("memory", "", MEMORY),
        topic!("Memory", "", REFUSED_MEMORY),
    ]
}

const READ: &str = "\
read: a read of the input failed, or 2,097,152 reads didn't reach its end. Or a
file couldn't be opened, also one that an include names. Nothing is written. For
example, standard input is a folder:

  ga-bench asm < .
  ga-bench: read

Fixed, with a file as the input:

  ga-bench asm < my.source
";

const NO_FILE: &str = "\
NoFile: no file has this name. It may be the name in an include.

  $ ga-bench list no.source
  ga-bench: no.source: input NoFile

Fixed, with the text on standard input (- means the same as no name):

  $ echo 'node 709 .' | ga-bench list -
  node 709 entry 000 code 1 words 1
  000  2C9B2  code         1  [ . . . . ]
";

const FOLDER: &str = "\
Folder: the name is that of a folder, not of a file. It may be the name in an
include.

  $ ga-bench list .
  ga-bench: .: input Folder

Fixed, with the text on standard input (- means the same as no name):

  $ echo 'node 709 .' | ga-bench list -
  node 709 entry 000 code 1 words 1
  000  2C9B2  code         1  [ . . . . ]
";

const NOT_A_FILE: &str = "\
NotAFile: 'save!' at the prompt and 'record --write' replace only regular files,
an include reads only those, and this name is that of a pipe or a device.
'save!' also reports it for a folder, and for a link that leads to no file.

  $ echo 'save! .' | ga-bench debug my.source
  refused NotAFile

Fixed, with the name of a file, or one that is free:

  $ echo 'save! my.transcript' | ga-bench debug my.source
  saved my.transcript
";

const OUTSIDE: &str = "\
Outside: a transcript names a source by a name that begins with / or has a part
'..', or by one that links lead out of the transcript's folder. A fault shows a
line of a source: a transcript of somebody else could show one of any file. If
you trust it, the flag --any-source of check, record and debug allows such a
name.

  $ printf 'profile 2\\nplace\\nsource ../my.source\\ngo\\n' >t; ga-bench check t
  ga-bench: input ../my.source Outside

Fixed, with a source in the transcript's folder:

  $ printf 'profile 2\\nplace\\nsource my.source\\ngo\\n' >t; ga-bench check t
  same 0
";

const EXISTS: &str = "\
Exists: 'save' at the prompt replaces nothing, and there is a file or a folder
with this name. 'save! NAME' replaces a file. It needs a free name beside the
file, one of NAME.new0 to NAME.new99, and reports Exists if there is none.

  $ echo 'save my.source' | ga-bench debug my.source
  refused Exists

Fixed, with another name:

  $ echo 'save my.transcript' | ga-bench debug my.source
  saved my.transcript
";

const NO_NAME: &str = "\
NoName: 'save' and 'save!' at the prompt need the name of a file behind them.

  $ echo 'save' | ga-bench debug my.source
  refused NoName

Fixed:

  $ echo 'save my.transcript' | ga-bench debug my.source
  saved my.transcript
";

const BAD_TEXT: &str = "\
BadText: the input, or a line at the prompt, isn't text in UTF-8. Convert other
encodings, for example with 'iconv -f latin1 -t utf-8'. Comments may have
letters beyond ASCII.

  $ printf 'node 709 . \\\\ f\\374nf\\n' | ga-bench asm
  ga-bench: input BadText

Fixed:

  $ printf 'node 709 . \\\\ f\\303\\274nf\\n' | ga-bench asm
  node 709 entry 000 code 1 words 1
  2C9B2
";

const BAD_CODE: &str = "\
BadCode: in 'dis --code N', N is greater than the number of words.

  $ echo 05872 2C9B2 | ga-bench dis --code 3
  ga-bench: words BadCode

Fixed: without --code all words are code.

  $ echo 05872 2C9B2 | ga-bench dis
  node 000
  [ @p !+ unext . ]
  , $2C9B2
";

const WRITE: &str = "\
write: a write to standard output failed or took no byte, or the output could
not be flushed. A prefix of the output may be written. For example, a disk is
full: 'ga-bench asm < my.source > /dev/full' reports 'ga-bench: write'. Free
some space, or write elsewhere. From 'record --write': the file named in front
could not be replaced, and is as it was.
";

const REFUSED_WRITE: &str = "\
Write: 'save' or 'save!' at the prompt couldn't write the file, for the reason
behind it, which is the system's. The session goes on. A file with this name is
as it was.

  $ echo 'save no/my.transcript' | ga-bench debug my.source
  refused Write, No such file or directory (os error 2)

Fixed, in a folder that is there:

  $ echo 'save my.transcript' | ga-bench debug my.source
  saved my.transcript
";

const MEMORY: &str = "\
memory: the program ran out of memory. Nothing is written, and the status is 3.
The system is out of memory, or a limit, such as one set by 'ulimit -v', is too
low. Raise the limit, or use a smaller input.
";

const REFUSED_MEMORY: &str = "\
Memory: the program ran out of memory at a line of the prompt. The session is as
it was before the line, and nothing was saved. The system is out of memory, or a
limit, such as one set by 'ulimit -v', is too low.
";
