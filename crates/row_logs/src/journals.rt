// `made THREAD`: the entry that a question and an answer make. `of-object N` and `of-thread THREAD`: the entries of an object
// or a thread. `is THREAD THREAD`: whether both are one. `own THREAD`: the number of its object. `same-entry`,
// `same-question` and `same-deed`: whether two are one. `entries` and `answers`: a list, made and read.

use journal_entries::{
    EntriesOf, entry_made, of_object, of_thread, same_deed, same_entry, same_question,
};
use row_desk::{Desk, say_entries, say_made, thread_by};
use row_words::Line;
use run_journal::{Answer, AnswerList, Deed, Entry, EntryList, Question};
use std::mem;

pub(crate) fn own(line: &mut Line<'_>) {
    let thread = thread_by(line);
    line.say_number(u64::from(thread.own_object()));
}

pub(crate) fn are_one(line: &mut Line<'_>) {
    let thread = thread_by(line);
    let other = thread_by(line);
    line.say_whether(thread.is(other));
}

pub(crate) fn answer(desk: &mut Desk, line: &mut Line<'_>, word: &str) {
    match word {
        "made" => made(desk, line),
        "of-object" => on_object(desk, line),
        _ => by_thread(desk, line),
    }
    line.say_names(&desk.names);
}

// The entry of the thread for the last question and the last answer.
fn made(desk: &mut Desk, line: &mut Line<'_>) {
    let thread = thread_by(line);
    desk.read(line);
    let question = desk.question(line);
    let answer = desk.last_answer(line);
    say_made(line, entry_made(thread, question, answer));
}

fn on_object(desk: &mut Desk, line: &mut Line<'_>) {
    let object = line.number();
    desk.read(line);
    say_all(line, of_object(&desk.entries, object));
}

fn by_thread(desk: &mut Desk, line: &mut Line<'_>) {
    let thread = thread_by(line);
    desk.read(line);
    say_all(line, of_thread(&desk.entries, thread));
}

fn say_all(line: &mut Line<'_>, part: EntriesOf<'_>) {
    line.say("all");
    for entry in part {
        line.say("; ");
        line.show(entry);
    }
}

pub(crate) fn are_same(desk: &Desk, line: &mut Line<'_>, word: &str) {
    match word {
        "same-entry" => are_same_entry(line, desk.entries.as_slice()),
        "same-question" => are_same_question(line, &desk.questions),
        _ => are_same_deed(line, &desk.deeds),
    }
    line.say_names(&desk.names);
}

fn are_same_entry(line: &mut Line<'_>, entries: &[Entry]) {
    match entries {
        [first, second] => line.say_whether(same_entry(first, second)),
        _ => line.refuse(),
    }
}

fn are_same_question(line: &mut Line<'_>, questions: &[Question]) {
    match questions {
        [first, second] => line.say_whether(same_question(first, second)),
        _ => line.refuse(),
    }
}

fn are_same_deed(line: &mut Line<'_>, deeds: &[Deed]) {
    match deeds {
        [first, second] => line.say_whether(same_deed(first, second)),
        _ => line.refuse(),
    }
}

pub(crate) fn lists(desk: &mut Desk, line: &mut Line<'_>, word: &str) {
    let alloc = line.alloc();
    match word {
        "entries" => entries(line, mem::replace(&mut desk.entries, EntryList::new(alloc))),
        _ => answers(line, mem::replace(&mut desk.answers, Vec::new(alloc))),
    }
    line.say_names(&desk.names);
}

// Taken out of its list, and put into one.
fn entries(line: &mut Line<'_>, list: EntryList) {
    let list = EntryList::from_vec(list.into_vec());
    line.say_count(list.len());
    line.say(if list.is_empty() { ", empty" } else { "" });
    say_entries(line, &list);
}

fn answers(line: &mut Line<'_>, answers: Vec<Answer>) {
    let list = AnswerList::from_vec(AnswerList::from_vec(answers).into_vec());
    line.say_count(list.as_slice().len());
    for answer in list.as_slice() {
        line.say("; ");
        line.show(answer);
    }
}
