mod rings;
