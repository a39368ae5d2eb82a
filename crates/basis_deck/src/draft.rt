// A basis in the making, card by card.
ghost use Rattle.std.specs.Prelude.{◌≡◌, length};
ghost use Rattle.lp_definitions.specs.LinearProgram.{size};
ghost use Rattle.problem_definitions.specs.Problem.{row_names, group_names};
ghost use Rattle.basis_deck_definitions.specs.Placings.{HasNames};

use crate::codes::{code_named, has_limit, has_more_from_3, has_more_from_4};
use crate::names::{names_of_columns, names_of_rows};
use basis_deck_definitions::Code;
use card_reader::Card;
use deck_definitions::{DeckFaultKind, Section};
use deck_fields::{
    CardStop, DataCard, Draft, SectionOrder, begins_section, is_section, next_section,
    read_fixed_card,
};
use lp_model::{Basis, Lp, NoMemory, Status};
use name_table::{Name, NameTable};
use problem_file::Problem;
use std::alloc::Global;

/// A column that a card makes basic, and the row that leaves for it, as variables.
#[derive(Clone, Copy)]
pub struct Exchange {
    pub column: u32,
    pub row: u32,
}

/// A basis in the making: the section that goes on, where each variable stands after the cards so far, and whether one of them
/// named it.
#[derive(Drop)]
pub struct BasisDraft<'a> {
    problem: &'a Problem,
    lp: &'a Lp,
    rows: NameTable,
    columns: NameTable,
    section: Option<Section>,
    statuses: Vec<Status>,
    marks: Vec<bool>,
    ghost row_names: { rows ≡ row_names problem.now },
    ghost column_names: { columns ≡ group_names problem.now.columns },
    ghost names: { HasNames problem.now lp.now },
    ghost placed: { length statuses.items ≡ size lp.now.matrix },
    ghost marked: { length marks.items ≡ size lp.now.matrix },
}

impl<'a> BasisDraft<'a> {
    ghost use Rattle.std.specs.Prelude.{◌≡◌, ◌-◌, [], None, Some, true, false, IfOk, OnOk, IfErr, IfSome, IfNone, slice_index_or};
    ghost use Rattle.lp_definitions.specs.LinearProgram.{IsVariable};
    ghost use Rattle.lp_definitions.specs.declared.Status.TheVariants.{Bs};
    ghost use Rattle.card_definitions.specs.Words.{named};
    ghost use Rattle.card_definitions.specs.Fields.{Fixed, reading_of};
    ghost use Rattle.card_reader.specs.Card.{card_bytes};
    ghost use Rattle.problem_definitions.specs.Problem.{has_row, has_group};
    ghost use Rattle.deck_fields.specs.Reported.{ReportsDeckFault};
    ghost use Rattle.deck_fields.specs.Views.{viewed};
    ghost use Rattle.basis_deck_definitions.specs.declared.Code.TheVariants.{Exchanges, Stands};
    ghost use Rattle.basis_deck_definitions.specs.Placings.{code_words, HasNames, row_variable, column_variable};
    ghost use Rattle.basis_deck.specs.Reading.{State, state_of, code_test, read_test, inner_test, fault_at, with_placing, with_code, with_read, with_data};
    ghost use Rattle.basis_deck.specs.Reading.{state_with};
    ghost use Rattle.basis_deck.specs.DraftView.{state_view};

    /// A draft after no card: each variable stands as it opens.
    pub fn new(alloc: Global, problem: &'a Problem, lp: &'a Lp) -> Result<BasisDraft<'a>, NoMemory>
        requires { HasNames problem.now lp.now }
        ensures { IfOk result (λ draft. state_view draft ≡ state_of problem.now lp.now []) }
    {
        let size = lp.number_of_variables() as usize;
        let rows = names_of_rows(alloc, problem.rows())?;
        let columns = names_of_columns(alloc, problem.columns())?;
        let opening = Basis::opening(alloc, lp)?;
        let marks = vec![in alloc; false; size]?;
        Ok(BasisDraft {
            problem,
            lp,
            rows,
            columns,
            section: None,
            statuses: opening.into_statuses(),
            marks,
        })
    }

    /// The basis after the cards so far.
    pub fn into_basis(self) -> Basis
        ensures { result ≡ (state_view self.entry).statuses }
    {
        let _size = self.lp.number_of_variables();
        Basis::of(self.statuses)
    }

    // The variable of the row of this name.
    fn row_variable(&self, name: &Name) -> Option<u32>
        ensures missing { IfNone result (has_row self.now.problem.now.rows name.now ≡ false) }
        ensures there { IfSome result (λ k. has_row self.now.problem.now.rows name.now ≡ true) }
        ensures number { IfSome result (λ k. k ≡ row_variable self.now.problem.now name.now) }
        ensures variable { IfSome result (IsVariable self.now.lp.now.matrix) }
    {
        self.rows.find(name)
    }

    // The variable of the column of this name.
    fn column_variable(&self, name: &Name) -> Option<u32>
        ensures missing { IfNone result (has_group self.now.problem.now.columns name.now ≡ false) }
        ensures there { IfSome result
            (λ k. has_group self.now.problem.now.columns name.now ≡ true) }
        ensures number { IfSome result (λ k. k ≡ column_variable self.now.problem.now name.now) }
        ensures variable { IfSome result (IsVariable self.now.lp.now.matrix) }
    {
        let number = self.columns.find(name)?;
        let _few = self.problem.column_count();
        Some(self.problem.row_count() + number)
    }

    // Whether a card so far named a variable.
    fn is_marked(&self, k: u32) -> bool
        requires { IsVariable self.now.lp.now.matrix k }
        ensures { result ≡ slice_index_or self.now.marks.items (k - 1) false }
    {
        self.marks[k as usize - 1]
    }

    // What a card with a code for an exchange says, or its fault.
    fn exchange_on(&self, card: &DataCard<'_>, to: Status) -> Result<Exchange, DeckFaultKind>
        ensures fault { IfErr result (λ kind. code_test (state_view self.now) (viewed card.now)
            (Exchanges to) ≡ Some kind) }
        ensures no_fault { OnOk result (code_test (state_view self.now) (viewed card.now)
            (Exchanges to) ≡ None) }
        ensures column { IfOk result (λ e. e.column ≡ column_variable self.now.problem.now
            card.now.name1) }
        ensures row { IfOk result (λ e. e.row ≡ row_variable self.now.problem.now
            card.now.name2) }
        ensures enters { IfOk result (λ e. IsVariable self.now.lp.now.matrix e.column) }
        ensures leaves { IfOk result (λ e. IsVariable self.now.lp.now.matrix e.row) }
    {
        let Some(column) = self.column_variable(&card.name1) else {
            return Err(DeckFaultKind::UnknownColumn);
        };
        let Some(row) = self.row_variable(&card.name2) else {
            return Err(DeckFaultKind::UnknownRow);
        };
        if self.is_marked(column) || self.is_marked(row) {
            return Err(DeckFaultKind::NamedTwice);
        }
        if !has_limit(self.lp, row, to) {
            return Err(DeckFaultKind::NoSuchLimit);
        }
        if has_more_from_4(card) {
            return Err(DeckFaultKind::ExtraField);
        }
        Ok(Exchange { column, row })
    }

    // The column that a card puts at this limit, or its fault.
    fn column_on(&self, card: &DataCard<'_>, at: Status) -> Result<u32, DeckFaultKind>
        ensures fault { IfErr result (λ kind. code_test (state_view self.now) (viewed card.now)
            (Stands at) ≡ Some kind) }
        ensures no_fault { OnOk result (code_test (state_view self.now) (viewed card.now)
            (Stands at) ≡ None) }
        ensures column { IfOk result (λ k. k ≡ column_variable self.now.problem.now
            card.now.name1) }
        ensures variable { IfOk result (IsVariable self.now.lp.now.matrix) }
    {
        let Some(column) = self.column_variable(&card.name1) else {
            return Err(DeckFaultKind::UnknownColumn);
        };
        if self.is_marked(column) {
            return Err(DeckFaultKind::NamedTwice);
        }
        if !has_limit(self.lp, column, at) {
            return Err(DeckFaultKind::NoSuchLimit);
        }
        if has_more_from_3(card) {
            return Err(DeckFaultKind::ExtraField);
        }
        Ok(column)
    }

    // Puts a variable where a card says.
    fn place(&mut self, k: u32, to: Status)
        requires { IsVariable self.old.lp.now.matrix k }
        ensures { state_view self.new ≡ with_placing (state_view self.old)
            (record { variable = k; status = to }) }
    {
        let place = k as usize - 1;
        self.statuses[place] = to;
        self.marks[place] = true;
    }

    // Takes a card with this code: for an exchange, or for a limit.
    fn take_code(&mut self, card: &DataCard<'_>, code: Code) -> Result<(), CardStop<DeckFaultKind>>
        ensures no_fault { OnOk result (code_test (state_view self.old) (viewed card.now) code
            ≡ None) }
        ensures step { OnOk result (state_view self.new ≡ with_code (state_view self.old)
            (viewed card.now) code) }
        ensures stop { IfErr result (ReportsDeckFault (code_test (state_view self.old)
            (viewed card.now) code)) }
    {
        match code {
            Code::Exchanges(to) => {
                let exchange = self.exchange_on(card, to).map_err(CardStop::Fault)?;
                self.place(exchange.column, Status::Bs);
                self.place(exchange.row, to);
                Ok(())
            }
            Code::Stands(at) => {
                let column = self.column_on(card, at).map_err(CardStop::Fault)?;
                self.place(column, at);
                Ok(())
            }
        }
    }

    // Takes what was read of a data card.
    fn take_read(&mut self, card: &DataCard<'_>) -> Result<(), CardStop<DeckFaultKind>>
        ensures no_fault { OnOk result (read_test (state_view self.old) (viewed card.now)
            (named code_words card.now.kind.now) ≡ None) }
        ensures step { OnOk result (state_view self.new ≡ with_read (state_view self.old)
            (viewed card.now) (named code_words card.now.kind.now)) }
        ensures stop { IfErr result (ReportsDeckFault (read_test (state_view self.old)
            (viewed card.now) (named code_words card.now.kind.now))) }
    {
        match code_named(card.kind) {
            Some(code) => self.take_code(card, code),
            None => Err(CardStop::Fault(DeckFaultKind::BadBasisCode)),
        }
    }

    // Takes a data card.
    fn take_data(&mut self, card: Card<'_>) -> Result<(), CardStop<DeckFaultKind>>
        ensures no_fault { OnOk result (inner_test (state_view self.old)
            (card_bytes card.entry) ≡ None) }
        ensures step { OnOk result (state_view self.new ≡ with_data (state_view self.old)
            (reading_of Fixed (card_bytes card.entry))) }
        ensures stop { IfErr result (ReportsDeckFault (inner_test (state_view self.old)
            (card_bytes card.entry))) }
    {
        let Some(section) = self.section else {
            return Err(CardStop::Fault(DeckFaultKind::SectionOrder));
        };
        if !is_section(Section::Header, section) {
            return Err(CardStop::Fault(DeckFaultKind::SectionOrder));
        }
        match read_fixed_card(card) {
            Ok(data) => self.take_read(&data),
            Err(kind) => Err(CardStop::Fault(kind)),
        }
    }

    // Takes a card.
    fn take_card(&mut self, card: Card<'_>) -> Result<(), CardStop<DeckFaultKind>>
        ensures no_fault { OnOk result (fault_at (state_view self.old)
            (card_bytes card.entry) ≡ None) }
        ensures step { OnOk result (state_view self.new ≡ state_with (state_view self.old)
            (card_bytes card.entry)) }
        ensures stop { IfErr result
            (ReportsDeckFault (fault_at (state_view self.old) (card_bytes card.entry))) }
    {
        if begins_section(card.bytes()) {
            let section = next_section::<NameToEndata>(self.section, card.bytes())?;
            self.section = Some(section);
            return Ok(());
        }
        self.take_data(card)
    }
}

/// The order of sections in a basis deck: after NAME comes ENDATA.
pub struct NameToEndata;

impl SectionOrder for NameToEndata {
    ghost use Rattle.basis_deck.specs.Reading.{ends_after};

    ghost follows = { ends_after };

    fn may_follow(before: Section, section: Section) -> bool {
        is_section(Section::Header, before) && is_section(Section::Endata, section)
    }
}

impl<'a> Draft for BasisDraft<'a> {
    ghost use Rattle.std.specs.Prelude.{◌≡◌};
    ghost use Rattle.basis_deck_definitions.specs.Reading.{basis_card_fault};
    ghost use Rattle.basis_deck.specs.Reading.{state_of};
    ghost use Rattle.basis_deck.specs.DraftView.{state_view};

    ghost test = { λ start. basis_card_fault start.problem.now start.lp.now };

    ghost is_made_of = { λ start draft seen. state_view draft ≡
        state_of start.problem.now start.lp.now seen };

    fn section(&self) -> Option<Section> {
        self.section
    }

    fn take(&mut self, card: Card<'_>) -> Result<(), CardStop<DeckFaultKind>> {
        self.take_card(card)
    }
}
