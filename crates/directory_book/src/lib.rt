// The book filled with what the directory's judge noted: the width, the counts, the schema, and the numbers of each entry. The judge notes where the
// lines of the entries begin, the book where their naming values do. Of a column no more is copied than there are types or entries.
#![tactic(auto)]

ghost use Rattle.std.specs.Prelude.{◌≡◌, length};
ghost use Rattle.rules.specs.Sheet.{Usable};
ghost use Rattle.tables.specs.Book.{BOOK};
ghost use Rattle.directory_book.specs.Filled.{filled, OfDirectory, StandsFor};

use directory_sheet::Notes;
use rules::Format;
use sheet_line::place;
use tables::book::{
    BOOK, ENTRIES, FIRST, LENGTH, NAMING, PARENT, PLACE, SCHEMA, TARGET, TYPES, WIDTH,
};

// The book of what is noted of a directory in this format.
pub fn note(f: Format, notes: Notes, book: &mut [u64; BOOK])
    requires { Usable f × OfDirectory f notes × (length book.old ≡ BOOK) }
    ensures { (book.new ≡ filled f.width notes book.old) × StandsFor f notes book.new }
{
    let types = notes.types;
    let count = notes.count;
    book[WIDTH] = f.width as u64;
    book[TYPES] = types as u64;
    book[ENTRIES] = count as u64;
    book[SCHEMA..SCHEMA + types].copy_from_slice(&notes.schema[..types]);
    for k in 0..count {
        book[PLACE + k] = place(notes.at[k], f.width) as u64;
        book[PARENT + k] = notes.parents[k] as u64;
        book[NAMING + k] = notes.naming[k];
        book[LENGTH + k] = notes.lengths[k] as u64;
        book[FIRST + k] = notes.first[k] as u64;
        book[TARGET + k] = notes.targets[k];
    }
    book[FIRST + count] = notes.first[count] as u64;
}
