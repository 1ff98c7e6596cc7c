// Filling lines, token by token. What is asked for (`Ready`) is of a line, a workspace and a token at once, so
// that none of them can keep it; nor can a struct, since each changes by itself.
ghost use Rattle.std.specs.Prelude.{◌≤◌, List, length};
ghost use Rattle.tape.specs.Command.{most_letters};
ghost use Rattle.tape.specs.Runs.{Letter};
ghost use Rattle.tape.specs.Tape.{least_room};
ghost use Rattle.wrap.specs.Lines.{Line, Filling, hard_break, put_chunk, put_chunks, add_or_break, put_token};
ghost use Rattle.wrap.specs.Filled.{Ready, Turns, Any, Tallied, Whole, Finished};

use crate::limit::Limit;
use crate::line::Cursor;
use crate::token;
use crate::token::Token;
use tape::letter;

// One chunk of a token that is too long for a line.
fn put_chunk(ws: &mut [u8], line: Cursor, chunk: Token, limit: Limit) -> Cursor
    requires { Ready line ws.old chunk }
    ensures { Turns chunk Tallied (λ (ls : List Letter). put_chunk ls limit.columns) line ws.old result ws.new }
{
    let next = line.close_if(ws, 0 < line.columns);
    let filled = next.add(ws, chunk);
    filled.close_if(ws, limit.columns <= filled.columns)
}

// A token that is too long for a line, in chunks of as many letters as a line has columns.
fn hard_break(ws: &mut [u8], line: Cursor, token: Token, limit: Limit) -> Cursor
    requires { Ready line ws.old token }
    ensures { Turns token Any
        (λ (ls : List Letter) (f : Filling) (t : Line). put_chunks ls limit.columns f (hard_break limit.columns t))
        line ws.old result ws.new }
{
    // By a `for` with `step_by` a caption takes a tenth longer, even one with no long token.
    let mut filled = line;
    let mut k = token.from;
    while limit.columns < token.to - k {
        let chunk = Token::of(ws, k, k + limit.columns);
        filled = put_chunk(ws, filled, chunk, limit);
        k = chunk.to;
    }
    let last = Token::of(ws, k, token.to);
    put_chunk(ws, filled, last, limit)
}

// Rules 3 and 4: the token on the line, or in chunks.
fn add_or_break(ws: &mut [u8], line: Cursor, token: Token, limit: Limit) -> Cursor
    requires { Ready line ws.old token }
    ensures { Turns token Tallied (λ (ls : List Letter). add_or_break ls limit.columns) line ws.old result ws.new }
{
    if limit.columns < token.columns {
        return hard_break(ws, line, token, limit);
    }
    line.add(ws, token)
}

// Rules 1 to 4: a token. A space token is dropped before any columns, be the line new or just closed
// for it.
fn put_token(ws: &mut [u8], line: Cursor, token: Token, limit: Limit) -> Cursor
    requires { Ready line ws.old token }
    ensures { Turns token Whole (λ (ls : List Letter). put_token ls limit.columns) line ws.old result ws.new }
{
    if token.columns == 0 {
        return line;
    }
    let next = line.close_if(ws, line.passes(token.columns, limit));
    if next.drops(token::is_blank_letter(ws, token.from)) {
        return next;
    }
    add_or_break(ws, next, token, limit)
}

// All letters, a break or a token after the other. The last line is closed where it has letters: one
// without would go, standing at the end.
pub fn fill(ws: &mut [u8], count: usize, limit: Limit) -> Cursor
    requires { (count ≤ most_letters) × (least_room ≤ length ws.old) }
    ensures { Finished count limit.columns ws.old result ws.new }
{
    // A turn passes a break or a whole token, so that no `for` over the letters fits.
    let mut line = Cursor::default();
    let mut i = 0;
    while i < count {
        if letter::code(ws, i) == 0x0a {
            line = line.close(ws);
            i += 1;
        } else {
            let token = Token::tokenise(ws, i, count);
            line = put_token(ws, line, token, limit);
            i = token.to;
        }
    }
    line.close_if(ws, line.start < line.kept)
}
