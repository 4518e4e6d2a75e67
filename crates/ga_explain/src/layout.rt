ghost use Rattle.std.specs.Prelude.{◌≡◌, map};
ghost use Rattle.ga_explain.specs.Table.{layout_entries};
ghost use Rattle.ga_explain.specs.Topic.{entry_of};

use crate::topic::{Topic, topic};

/// The faults of layout, in the order of the pages.
#[tactic(auto, unfolding(crate::specs::Table::layout_entries))]
pub fn topics() -> [Topic; 4]
    ensures { map entry_of result ≡ layout_entries }
{
    [
        topic!(
            "UndefinedLabel",
            "a name that is no label of its node",
            UNDEFINED_LABEL
        ),
        topic!(
            "OutOfReach",
            "a label that the destination of its slot doesn't reach",
            OUT_OF_REACH,
        ),
        topic!(
            "UnextAlone",
            "an unext that would begin a word, where it repeats itself alone",
            UNEXT_ALONE,
        ),
        topic!(
            "TooLong",
            "an item that would need the 65th word of its node",
            TOO_LONG
        ),
    ]
}

const UNDEFINED_LABEL: &str = "\
UndefinedLabel: a name that is no label of its node. Names are case-sensitive,
and a node doesn't see the labels of others. For a FILE the error names the
label or constant that may be meant, if one is near.

  $ echo 'node 709 jump lop loop: dup' | ga-bench asm
  ga-bench: asm 709 1:15 UndefinedLabel

Fixed:

  $ echo 'node 709 jump loop loop: dup' | ga-bench asm
  node 709 entry 000 code 2 words 2
  10001 249B2
";

const OUT_OF_REACH: &str = "\
OutOfReach: in brackets, a label that the destination of its slot doesn't reach.
Slot 0 reaches 000 to 3FF, slot 1 000 to 0FF, and slot 2 the eight addresses
that agree with P from bit 3 up. P is the address of the word, and 1 more for
the word and for each @p and !p before the slot.

  $ echo 'node 709 x: [ @p @p @p @p ] , 1 , 2 , 3 , 4 [ @p @p jump x ]' |
    ga-bench asm
  ga-bench: asm 709 1:58 OutOfReach

Fixed, with the jump in slot 1:

  $ echo 'node 709 x: [ @p @p @p @p ] , 1 , 2 , 3 , 4 [ @p jump x ] , 5' |
    ga-bench asm
  node 709 entry 000 code 7 words 7
  05D17 00001 00002 00003 00004 05700 00005
";

const UNEXT_ALONE: &str = "\
UnextAlone: outside brackets, an 'unext' that would begin a word and so repeat
only itself. It repeats the word that it is in. So put the loop before it in the
same word: behind 'align', or in brackets.

  $ echo 'node 709 9 push align unext' | ga-bench asm
  ga-bench: asm 709 1:23 UnextAlone

Fixed:

  $ echo 'node 709 9 push align . unext' | ga-bench asm
  node 709 entry 000 code 3 words 3
  048B2 00009 2D1B2
";

const TOO_LONG: &str = "\
TooLong: an item would need the 65th word of its node (asm); there are more than
64 words (words); the input has more than 1,048,576 bytes (input); or so would a
witness of 'race' or a file of 'record --write', or the output of 'record',
'check' or 'trace' more than 268,435,456 (output). At the prompt, the line has
more than 65,536 bytes, or the session to be saved more than 1,048,576.

  $ printf 'node 711%065d' 0 | sed 's/0/ [ . ]/g' | ga-bench asm
  ga-bench: asm 711 1:394 TooLong
  $ printf '2C9B2 %.0s' $(seq 65) | ga-bench one 0
  ga-bench: words TooLong
  $ printf '%1048577s' '' | ga-bench one 0
  ga-bench: input TooLong

Fixed: a node has 64 words, so split a longer program over several nodes. For a
FILE the error reports how many words the node needs.

  $ printf '2C9B2 %.0s' $(seq 64) | ga-bench one 0
  node 000 P 000 A 00000 B 15D R 00000 S 00000 T 00000 C 0 io 00000 at fetch
   steps 0 need own
";
