// The layout of lines.
ghost use Rattle.std.specs.Prelude.{◌≡◌, ◌+◌, ◌<◌, ◌≤◌, ◌^◌, ◌↔◌, [], ◌∷◌, ◌++◌, OnOk, IfOk, IsTrue};
ghost use Rattle.py_tokens.specs.LineLayout.{Fresh, brackets_behind, end_place, token_at, width_at};
ghost use Rattle.py_lexer.specs.Walk.{
  line_of,
  between_of,
  dedents_of,
  left_of,
  turn_tokens,
  turn_widths,
  past_other,
  past_number,
  past_tab,
  past_comment,
  past_line_end,
  past_form,
  newlines_of,
  form_turn,
  form_widths,
  tokens_of,
  next_layout,
  first_layout,
  closing_of,
};

use crate::widths::Widths;
use py_base::Place;
use py_tokens::{Mark, Piece, Shape, Token, TokenForm};
use std::alloc::{AllocError, Global};

/// What stands in front of a piece on its line.
#[derive(Clone, Copy, Debug, PartialEq, Eq)]
pub enum LineFront {
    /// No token, and only spaces.
    Spaces,
    /// No token, and the first tab at this place.
    Tab(Place),
    /// No token, and a comment.
    Comment,
    /// A number straight in front, which ends here.
    Number(Place),
    /// A token that ends here, the last one.
    Behind(Place),
}

/// What stands in front of a piece.
#[derive(Debug, Drop)]
pub struct Layout {
    pub line: LineFront,
    pub brackets: u32,
    pub widths: Widths,
}

impl Layout {
    /// In front of a text.
    pub fn first(alloc: Global) -> Result<Layout, AllocError>
        ensures { IfOk result (λ layout. layout ≡ first_layout) }
    {
        let mut widths = Widths::new(alloc);
        widths.push(0)?;
        Ok(Layout {
            line: LineFront::Spaces,
            brackets: 0,
            widths,
        })
    }

    /// Goes past a piece without a fault, whose tokens it writes.
    pub fn take(&mut self, piece: Piece, tokens: &mut Vec<Token>) -> Result<(), AllocError>
        requires { self.old.brackets + 1 < 2 ^ 32 }
        ensures tokens { OnOk result (tokens.new.items ≡ tokens.old.items ++ tokens_of self.old piece piece.shape) }
        ensures layout { OnOk result (self.new ≡ next_layout self.old piece) }
        ensures few { OnOk result (self.new.brackets ≤ self.old.brackets + 1) }
    {
        let Piece { place, end, shape } = piece;
        match shape {
            Shape::Whole(form) => self.take_token(Token { place, end, form }, tokens),
            Shape::LineEnd => self.take_line_end(tokens),
            other => {
                self.line = past_other(&other, self.line, place, end);
                Ok(())
            }
        }
    }
}

impl Layout {
    fn take_token(&mut self, token: Token, tokens: &mut Vec<Token>) -> Result<(), AllocError>
        requires { self.old.brackets + 1 < 2 ^ 32 }
        ensures tokens { OnOk result (tokens.new.items ≡ tokens.old.items ++ form_turn (line_of self.old.line) self.old.widths token.place ++ token ∷ []) }
        ensures line { OnOk result (self.new.line ≡ past_form token.form token.end) }
        ensures brackets { OnOk result (self.new.brackets ≡ brackets_behind token.form self.old.brackets) }
        ensures widths { OnOk result (self.new.widths ≡ form_widths (line_of self.old.line) self.old.widths token.place) }
        ensures few { OnOk result (self.new.brackets ≤ self.old.brackets + 1) }
    {
        if !has_token(self.line) {
            turn(&mut self.widths, token.place, tokens)?;
        }
        self.line = past_form(&token.form, token.end);
        self.brackets = brackets_behind(&token.form, self.brackets);
        tokens.push(token)?;
        Ok(())
    }

    fn take_line_end(&mut self, tokens: &mut Vec<Token>) -> Result<(), AllocError>
        ensures tokens { OnOk result (tokens.new.items ≡ tokens.old.items ++ newlines_of (line_of self.old.line) self.old.brackets) }
        ensures line { OnOk result (self.new.line ≡ past_line_end self.old.line self.old.brackets) }
        ensures brackets { OnOk result (self.new.brackets ≡ self.old.brackets) }
        ensures widths { OnOk result (self.new.widths ≡ self.old.widths) }
    {
        end_line(self.line, self.brackets, tokens)?;
        self.line = past_line_end(self.line, self.brackets);
        Ok(())
    }

    /// Closes what is open at the end of a text, whose last character is in front of this place.
    pub fn finish(mut self, place: Place, tokens: &mut Vec<Token>) -> Result<(), AllocError>
        requires { (end_place place).line < 2 ^ 32 }
        ensures { OnOk result (tokens.new.items ≡ tokens.old.items ++ closing_of self place) }
    {
        let end = end_place(place);
        end_line(self.line, self.brackets, tokens)?;
        close(&mut self.widths, end, 0, tokens)?;
        tokens.push(token_at(end, TokenForm::End))?;
        Ok(())
    }
}

fn has_token(line: LineFront) -> bool
    ensures { IsTrue result ↔ ¬ (line_of line ≡ Fresh) }
{
    match line {
        LineFront::Number(_) | LineFront::Behind(_) => true,
        LineFront::Spaces | LineFront::Tab(_) | LineFront::Comment => false,
    }
}

// A token of the layout.
fn token_at(place: Place, form: TokenForm) -> Token
    ensures { result ≡ token_at place form }
{
    Token {
        place,
        end: place,
        form,
    }
}

// The line behind a piece that is no token and no end of a line.
fn past_other(shape: &Shape, line: LineFront, place: Place, end: Place) -> LineFront
    ensures { result ≡ past_other shape.now line place end }
{
    match shape {
        Shape::Space => past_number(line),
        Shape::Tab => past_tab(line, place),
        Shape::Comment => past_comment(line),
        Shape::LargeNumber => LineFront::Number(end),
        _ => LineFront::Behind(end),
    }
}

fn past_number(line: LineFront) -> LineFront
    ensures { result ≡ past_number line }
{
    match line {
        LineFront::Number(end) => LineFront::Behind(end),
        _ => line,
    }
}

fn past_tab(line: LineFront, place: Place) -> LineFront
    ensures { result ≡ past_tab line place }
{
    match line {
        LineFront::Spaces => LineFront::Tab(place),
        _ => past_number(line),
    }
}

fn past_comment(line: LineFront) -> LineFront
    ensures { result ≡ past_comment line }
{
    match line {
        LineFront::Number(end) | LineFront::Behind(end) => LineFront::Behind(end),
        _ => LineFront::Comment,
    }
}

fn past_form(form: &TokenForm, end: Place) -> LineFront
    ensures { result ≡ past_form form.now end }
{
    match form {
        TokenForm::Number(_) => LineFront::Number(end),
        _ => LineFront::Behind(end),
    }
}

fn past_line_end(line: LineFront, brackets: u32) -> LineFront
    ensures { result ≡ past_line_end line brackets }
{
    match line {
        LineFront::Number(end) | LineFront::Behind(end) => {
            if brackets == 0 {
                LineFront::Spaces
            } else {
                LineFront::Behind(end)
            }
        }
        _ => LineFront::Spaces,
    }
}

// Writes the NEWLINE of a line that has a token, outside brackets.
fn end_line(line: LineFront, brackets: u32, tokens: &mut Vec<Token>) -> Result<(), AllocError>
    ensures { OnOk result (tokens.new.items ≡ tokens.old.items ++ newlines_of (line_of line) brackets) }
{
    match line {
        LineFront::Number(end) | LineFront::Behind(end) => {
            if brackets == 0 {
                tokens.push(token_at(end, TokenForm::Newline))?;
            }
        }
        _ => {}
    }
    Ok(())
}

fn brackets_behind(form: &TokenForm, brackets: u32) -> u32
    requires { brackets + 1 < 2 ^ 32 }
    ensures value { result ≡ brackets_behind form.now brackets }
    ensures within { result ≤ brackets + 1 }
{
    match form {
        TokenForm::Mark(Mark::OpenParen | Mark::OpenBracket) => brackets + 1,
        TokenForm::Mark(Mark::CloseParen | Mark::CloseBracket) => brackets.saturating_sub(1),
        _ => brackets,
    }
}

fn end_place(place: Place) -> Place
    requires { (end_place place).line < 2 ^ 32 }
    ensures { result ≡ end_place place }
{
    if place.col == 1 {
        place
    } else {
        Place {
            line: place.line + 1,
            col: 1,
        }
    }
}

// Writes the INDENT or the DEDENTs in front of the first token of a line.
fn turn(widths: &mut Widths, place: Place, tokens: &mut Vec<Token>) -> Result<(), AllocError>
    ensures tokens { OnOk result (tokens.new.items ≡ tokens.old.items ++ turn_tokens place (width_at place) widths.old) }
    ensures widths { OnOk result (widths.new ≡ turn_widths (width_at place) widths.old) }
{
    let width = place.col.saturating_sub(1);
    if widths.newest() < width {
        tokens.push(token_at(place, TokenForm::Indent))?;
        return widths.push(width);
    }
    close(widths, place, width, tokens)
}

// Closes the larger widths by DEDENTs.
fn close(
    widths: &mut Widths,
    place: Place,
    width: u32,
    tokens: &mut Vec<Token>,
) -> Result<(), AllocError>
    ensures tokens { OnOk result (tokens.new.items ≡ tokens.old.items ++ dedents_of place width widths.old) }
    ensures widths { OnOk result (widths.new ≡ left_of width widths.old) }
{
    'widths: while width < widths.newest() {
        widths.pop();
        tokens.push(token_at(place, TokenForm::Dedent))?;
    }
    Ok(())
}
