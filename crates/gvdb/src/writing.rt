// Writing an image.
ghost use Rattle.std.specs.Prelude.{◌≡◌, length};
ghost use Rattle.key_hash.specs.Hash.{rule_of};
ghost use Rattle.write.specs.Write.{write_answer, image_after};
ghost use Rattle.answers.specs.Manner.{form_of};
ghost use Rattle.answers_build.specs.Writing.{written_answer};

use answers::manner::form_of;
use answers_build::writing::GvdbImage;

// gvdb-rs: write_to_vec_with_table.
// The image of a table, laid into the front of `image`, with `filter` words in every table of it. The builder stays as it was (its link
// words are used and emptied again); a refusal writes nothing.
#[unsafe(no_mangle)]
pub extern "C" fn gvdb_write(
    words: &mut [usize],
    arena: &[u8],
    table: u32,
    image: &mut [u8],
    manner: u32,
    filter: u32,
) -> GvdbImage
    ensures said { result ≡ written_answer (write_answer (rule_of (form_of manner)) filter words.old arena.now table (length image.old)) }
    ensures kept { words.new ≡ words.old }
    ensures wrote { image.new ≡ image_after (rule_of (form_of manner)) filter words.old arena.now table image.old }
{
    write::write::write(words, arena, table, image, form_of(manner), filter).into()
}
