mod roster;
mod timetable;
