mod automata;
mod blocks;
mod checks;
mod closures;
mod limits;
mod terms;
mod timing;
